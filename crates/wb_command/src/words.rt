//! The words of the command line.
use crate::journal_words::{
    check_command, export_command, export_of, file, migrate_command, migration_of,
};
use crate::service_words::{Service, serve_command, service_of};
use crate::setup_words::{SetupFault, explanation, instrument, with_setup};
use clap::{Arg, ArgAction, ArgMatches, Command};
use std::alloc::{AllocError, Global};
use wb_instrument::Instrument;

/// The status of words or a setup that are refused.
pub const REFUSED: u8 = 2;

/// The version of the program.
pub const VERSION: &str = "2.1.1";

const REPLAY_EXAMPLE: &str = "Example:
  printf 'r 9170 4\\nt SI\\n' | weighbridge replay
processes four readings of 9170 tenths of e and a request for the weight, and prints t S S      18340 kg.";

/// The help of `--verbose`, where it only explains faults.
pub(crate) const EXPLAINS: &str =
    "explain each fault on standard error: which file or option it concerns, and why";

/// The request of a command line, and whether the program explains a fault.
#[derive(Drop)]
pub struct Asked {
    /// The request.
    pub invocation: Invocation,
    /// Whether standard error says which file or option a fault is of, and why.
    pub is_verbose: bool,
}

/// What the words of the command line ask for.
#[derive(Drop)]
pub enum Invocation {
    /// A trace is to be replayed with this instrument.
    Replay(Instrument),
    /// A bridge with this instrument is to be served.
    Serve(Instrument, Service),
    /// The journal in this file is to be checked.
    Check(String),
    /// The journal in this file is to be exported.
    ExportJournal(String),
    /// The tickets of the journal in this file are to be exported.
    ExportTickets(String),
    /// The journal of version 1 in the first file is to be brought into the second, as version 2.
    Migrate(String, String),
    /// The setup is refused. The text names the option, its value and what is allowed.
    SetupRefused(SetupFault, String),
    /// The words are refused, or ask for help or the version.
    WordsRefused(clap::Error),
    /// No subcommand, or not every word of one. `clap` refuses such words, so this doesn't come.
    Nothing,
}

/// What these words ask for, the name of the program first.
pub fn read_words(alloc: Global, words: &[String]) -> Result<Asked, AllocError> {
    let matches = match command(alloc)?.try_get_matches_from(words) {
        Ok(matches) => matches,
        Err(error) => return Ok(unexplained(Invocation::WordsRefused(error))),
    };
    match matches.subcommand() {
        Some((name, words)) => Ok(Asked {
            invocation: asked_of(alloc, name, words)?,
            is_verbose: words.get_flag("verbose"),
        }),
        None => Ok(unexplained(Invocation::Nothing)),
    }
}

fn unexplained(invocation: Invocation) -> Asked {
    Asked {
        invocation,
        is_verbose: false,
    }
}

/// What the words of this subcommand ask for.
fn asked_of(alloc: Global, name: &str, words: &ArgMatches<'_>) -> Result<Invocation, AllocError> {
    match name {
        "replay" => replay_of(alloc, words),
        "serve" => serve_of(alloc, words),
        "check" => check_of(alloc, words),
        "export" => export_of(alloc, words),
        "migrate" => migration_of(alloc, words),
        _ => Ok(Invocation::Nothing),
    }
}

fn replay_of(alloc: Global, words: &ArgMatches<'_>) -> Result<Invocation, AllocError> {
    match instrument(words) {
        Some(Ok(instrument)) => Ok(Invocation::Replay(instrument)),
        Some(Err(fault)) => setup_refused(alloc, words, fault),
        None => Ok(Invocation::Nothing),
    }
}

fn serve_of(alloc: Global, words: &ArgMatches<'_>) -> Result<Invocation, AllocError> {
    match instrument(words) {
        Some(Ok(instrument)) => match service_of(alloc, words)? {
            Some(service) => Ok(Invocation::Serve(instrument, service)),
            None => Ok(Invocation::Nothing),
        },
        Some(Err(fault)) => setup_refused(alloc, words, fault),
        None => Ok(Invocation::Nothing),
    }
}

fn setup_refused(
    alloc: Global,
    words: &ArgMatches<'_>,
    fault: SetupFault,
) -> Result<Invocation, AllocError> {
    let explanation = explanation(alloc, words, fault)?;
    Ok(Invocation::SetupRefused(fault, explanation))
}

fn check_of(alloc: Global, words: &ArgMatches<'_>) -> Result<Invocation, AllocError> {
    match file(alloc, words)? {
        Some(file) => Ok(Invocation::Check(file)),
        None => Ok(Invocation::Nothing),
    }
}

/// Adds `--verbose`, which has this help, to the command.
pub(crate) fn with_verbose<'a>(
    alloc: Global,
    command: Command<'a>,
    help: &'a str,
) -> Result<Command<'a>, AllocError> {
    let verbose = Arg::new(alloc, "verbose").long("verbose");
    command.arg(verbose.action(ArgAction::SetTrue).help(help))
}

/// The subcommand `replay`.
fn replay_command<'a>(alloc: Global) -> Result<Command<'a>, AllocError> {
    let replay = Command::new(alloc, "replay")
        .about("replays a trace from standard input, and prints the replies")
        .after_help(REPLAY_EXAMPLE);
    let replay = with_verbose(alloc, replay, EXPLAINS)?;
    with_setup(alloc, replay)
}

/// What the program can be asked to do.
#[derive(Clone, Copy)]
enum Subcommand {
    Replay,
    Serve,
    Check,
    Export,
    Migrate,
}

/// The subcommands, in the order in which help shows them.
static SUBCOMMANDS: [Subcommand; 5] = [
    Subcommand::Replay,
    Subcommand::Serve,
    Subcommand::Check,
    Subcommand::Export,
    Subcommand::Migrate,
];

fn subcommand_of<'a>(alloc: Global, name: Subcommand) -> Result<Command<'a>, AllocError> {
    match name {
        Subcommand::Replay => replay_command(alloc),
        Subcommand::Serve => serve_command(alloc),
        Subcommand::Check => check_command(alloc),
        Subcommand::Export => export_command(alloc),
        Subcommand::Migrate => migrate_command(alloc),
    }
}

/// The whole command line.
fn command<'a>(alloc: Global) -> Result<Command<'a>, AllocError> {
    let mut command = Command::new(alloc, "weighbridge")
        .about("terminal and office of a public weighbridge")
        .version(VERSION)
        .subcommand_required(true)
        .arg_required_else_help(true);
    for name in SUBCOMMANDS.as_slice() {
        command = command.subcommand(subcommand_of(alloc, *name)?)?;
    }
    Ok(command)
}
