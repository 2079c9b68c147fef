//! The words of the command line.
use crate::arguments::{Text, flag, over_calibration, text_argument, text_of};
use crate::filter_words::{FILTER_FORM, FilterWords, filter_argument, filter_of};
use crate::making_words::{Sampling, finish_command, point_command, sampling_of};
use clap::error::ErrorKind;
use clap::{ArgGroup, ArgMatches, Command};
use std::alloc::{AllocError, Global};
use wb_calibration::Filter;

/// The status of words that are refused.
pub const REFUSED: u8 = 2;

/// The version of the program.
const VERSION: &str = "2.1.1";

const RUN_EXAMPLE: &str = "Example:
  modbus --tcp 192.168.1.10 .. | weighbridge-converter run --calibration calibration --listen 127.0.0.1:4000
sends lines of tenths of e to the program that connects to port 4000, as weighbridge serve --converter tcp:127.0.0.1:4000 does.
With --fifo /run/weighbridge/converter in place of --listen, it writes them for weighbridge serve --converter /run/weighbridge/converter.";

const SHOW_EXAMPLE: &str = "Examples:
  weighbridge-converter show --calibration calibration
  weighbridge-converter show --calibration calibration --plot | gnuplot > calibration.svg
If the file was changed, it is refused with the number of the first calibration that was changed (status 1).";

static LISTEN: Text = Text(
    "listen",
    "ADDRESS",
    "address on which a client connects: an IPv4 address of 127.0.0.0/8, a colon and a port",
);

static FIFO: Text = Text(
    "fifo",
    "PATH",
    "FIFO to write the lines into, in place of a client; only users who may open it can read them or write others",
);

/// Where lines are handed to.
#[derive(Drop)]
pub enum Receiver {
    /// The client that connects at this address.
    Client(String),
    /// Whoever reads the FIFO of this path.
    Fifo(String),
}

/// How lines are handed on.
#[derive(Drop)]
pub struct Running {
    /// The file of the calibrations.
    pub calibration: String,
    /// Where they are handed to.
    pub receiver: Receiver,
    /// The filter that the calibration has to have, if one is given.
    pub filter: Option<Filter>,
    /// Whether what happens is reported on standard error.
    pub is_verbose: bool,
}

/// What the words of the command line ask for. The first text is the file of the calibrations.
#[derive(Drop)]
pub enum ConverterInvocation {
    /// Lines are to be handed on, by a calibration with this filter if one is given.
    Run(Running),
    /// A point is to be taken.
    Point(String, Sampling),
    /// A calibration is to be made of the points that were taken, with this filter or none.
    Finish(String, Option<Filter>),
    /// The newest calibration is to be shown.
    Show(String),
    /// What gnuplot draws of the newest calibration is to be printed.
    Plot(String),
    /// The words are refused, or ask for help or the version.
    WordsRefused(clap::Error),
    /// No subcommand, or not every word of one. `clap` refuses such words, so this doesn't come.
    Nothing,
}

/// What these words ask for, the name of the program first.
pub fn read_words(alloc: Global, words: &[String]) -> Result<ConverterInvocation, AllocError> {
    let matches = match command(alloc)?.try_get_matches_from(words) {
        Ok(matches) => matches,
        Err(error) => return Ok(ConverterInvocation::WordsRefused(error)),
    };
    match matches.subcommand() {
        Some((name, words)) => asked_of(alloc, name, words),
        None => Ok(ConverterInvocation::Nothing),
    }
}

/// What the words of this subcommand ask for.
fn asked_of(
    alloc: Global,
    name: &str,
    words: &ArgMatches<'_>,
) -> Result<ConverterInvocation, AllocError> {
    let Some(calibration) = text_of(alloc, words, "calibration")? else {
        return Ok(ConverterInvocation::Nothing);
    };
    match name {
        "run" => run_of(alloc, calibration, words),
        "point" => Ok(point_of(calibration, words)),
        "finish" => finish_of(alloc, calibration, words),
        "show" => Ok(show_of(calibration, words)),
        _ => Ok(ConverterInvocation::Nothing),
    }
}

fn run_of(
    alloc: Global,
    calibration: String,
    words: &ArgMatches<'_>,
) -> Result<ConverterInvocation, AllocError> {
    let receiver = match (
        text_of(alloc, words, "listen")?,
        text_of(alloc, words, "fifo")?,
    ) {
        (Some(address), _) => Receiver::Client(address),
        (None, Some(path)) => Receiver::Fifo(path),
        (None, None) => return Ok(ConverterInvocation::Nothing),
    };
    let filter = match filter_of(words) {
        FilterWords::Nothing => None,
        FilterWords::Wanted(filter) => Some(filter),
        FilterWords::Other => return refused(alloc),
    };
    Ok(ConverterInvocation::Run(Running {
        calibration,
        receiver,
        filter,
        is_verbose: words.get_flag("verbose"),
    }))
}

fn finish_of(
    alloc: Global,
    calibration: String,
    words: &ArgMatches<'_>,
) -> Result<ConverterInvocation, AllocError> {
    match filter_of(words) {
        FilterWords::Nothing => Ok(ConverterInvocation::Finish(calibration, None)),
        FilterWords::Wanted(filter) => Ok(ConverterInvocation::Finish(calibration, Some(filter))),
        FilterWords::Other => refused(alloc),
    }
}

/// Words that are none of a filter are refused.
fn refused(alloc: Global) -> Result<ConverterInvocation, AllocError> {
    let error = command(alloc)?.error(ErrorKind::ValueValidation, FILTER_FORM)?;
    Ok(ConverterInvocation::WordsRefused(error))
}

fn point_of(calibration: String, words: &ArgMatches<'_>) -> ConverterInvocation {
    match sampling_of(words) {
        Some(sampling) => ConverterInvocation::Point(calibration, sampling),
        None => ConverterInvocation::Nothing,
    }
}

fn show_of(calibration: String, words: &ArgMatches<'_>) -> ConverterInvocation {
    if words.get_flag("plot") {
        ConverterInvocation::Plot(calibration)
    } else {
        ConverterInvocation::Show(calibration)
    }
}

/// The subcommand `run`.
fn run_command<'a>(alloc: Global) -> Result<Command<'a>, AllocError> {
    let about =
        "sends the load of each line of counts on standard input to the client that is connected";
    let run = over_calibration(alloc, "run", about, RUN_EXAMPLE)?;
    let run = run.arg(text_argument(alloc, &LISTEN).required(false))?;
    let run = run.arg(text_argument(alloc, &FIFO).required(false))?;
    // a group, so that a refusal names both
    let receiver = ArgGroup::new(alloc, "receiver").required(true);
    let run = run.group(receiver.arg("listen")?.arg("fifo")?)?;
    let help =
        "filter that the calibration must have, as it was given to finish; a calibration with another one is refused";
    let run = run.arg(filter_argument(alloc, help))?;
    let help = "report connections and faults on standard error";
    run.arg(flag(alloc, "verbose", help))
}

/// The subcommand `show`.
fn show_command<'a>(alloc: Global) -> Result<Command<'a>, AllocError> {
    let about = "prints the newest calibration of the file";
    let show = over_calibration(alloc, "show", about, SHOW_EXAMPLE)?;
    let help = "print commands for gnuplot, which draws the points and their deviations as SVG";
    show.arg(flag(alloc, "plot", help))
}

/// What the program can be asked to do.
#[derive(Clone, Copy)]
enum Subcommand {
    Run,
    Point,
    Finish,
    Show,
}

/// The subcommands, in the order in which help shows them.
static SUBCOMMANDS: [Subcommand; 4] = [
    Subcommand::Run,
    Subcommand::Point,
    Subcommand::Finish,
    Subcommand::Show,
];

fn subcommand_of<'a>(alloc: Global, name: Subcommand) -> Result<Command<'a>, AllocError> {
    match name {
        Subcommand::Run => run_command(alloc),
        Subcommand::Point => point_command(alloc),
        Subcommand::Finish => finish_command(alloc),
        Subcommand::Show => show_command(alloc),
    }
}

/// The whole command line.
fn command<'a>(alloc: Global) -> Result<Command<'a>, AllocError> {
    let mut command = Command::new(alloc, "weighbridge-converter")
        .about("from the counts of a load cell to tenths of a verification scale interval")
        .version(VERSION)
        .subcommand_required(true)
        .arg_required_else_help(true);
    for name in SUBCOMMANDS.as_slice() {
        command = command.subcommand(subcommand_of(alloc, *name)?)?;
    }
    Ok(command)
}
