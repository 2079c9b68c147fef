//! The words of what is asked of a journal's file.
use crate::words::{EXPLAINS, Invocation, with_verbose};
use clap::{Arg, ArgAction, ArgMatches, Command};
use std::alloc::{AllocError, Global};

/// What can be exported.
static EXPORTS: [&str; 2] = ["journal", "tickets"];

const CHECK_EXAMPLE: &str = "Example:
  weighbridge check --file journal.db
prints SOUND and how many entries there are, or DAMAGED and the least number at fault (status 1).";

const EXPORT_EXAMPLE: &str = "Example:
  weighbridge export --file journal.db --what tickets > tickets.csv
The tickets of a damaged journal are refused (status 1).";

const MIGRATE_EXAMPLE: &str = "Example:
  weighbridge migrate --file journal.db --to journal-2.db
writes the journal of version 1 in journal.db into the new file journal-2.db as version 2, and prints MIGRATED and how many
entries there are. journal.db stays as it is. Stop the service first.";

/// The file of a journal.
pub(crate) fn file_argument<'a>(alloc: Global, help: &'a str) -> Arg<'a> {
    Arg::new(alloc, "file")
        .long("file")
        .value_name("FILE")
        .required(true)
        .action(ArgAction::Set)
        .help(help)
}

/// The subcommand `check`.
pub(crate) fn check_command<'a>(alloc: Global) -> Result<Command<'a>, AllocError> {
    let check = Command::new(alloc, "check")
        .about("checks the journal in a file, and prints what it finds")
        .after_help(CHECK_EXAMPLE)
        .arg(file_argument(alloc, "file of the journal; it must exist"))?;
    with_verbose(alloc, check, EXPLAINS)
}

fn what_argument<'a>(alloc: Global) -> Arg<'a> {
    Arg::new(alloc, "what")
        .long("what")
        .value_name("WHAT")
        .required(true)
        .action(ArgAction::Set)
        .value_parser(EXPORTS.as_slice())
        .help("what to print")
}

/// The subcommand `export`.
pub(crate) fn export_command<'a>(alloc: Global) -> Result<Command<'a>, AllocError> {
    let export = Command::new(alloc, "export")
        .about("prints the journal in a file, or its tickets, as CSV")
        .after_help(EXPORT_EXAMPLE)
        .arg(file_argument(alloc, "file of the journal; it must exist"))?;
    let export = export.arg(what_argument(alloc))?;
    with_verbose(alloc, export, EXPLAINS)
}

/// The file that a journal is written to.
fn to_argument<'a>(alloc: Global) -> Arg<'a> {
    Arg::new(alloc, "to")
        .long("to")
        .value_name("FILE")
        .required(true)
        .action(ArgAction::Set)
        .help(
            "file for the journal as version 2; if it doesn't exist, it is made; a file that isn't empty is refused",
        )
}

/// The subcommand `migrate`.
pub(crate) fn migrate_command<'a>(alloc: Global) -> Result<Command<'a>, AllocError> {
    let migrate = Command::new(alloc, "migrate")
        .about("writes the journal in a file of version 1 into a new file, as version 2")
        .after_help(MIGRATE_EXAMPLE)
        .arg(file_argument(alloc, "file of the journal of version 1; it must exist"))?;
    let migrate = migrate.arg(to_argument(alloc))?;
    with_verbose(alloc, migrate, EXPLAINS)
}

/// The file that the words name. None if they name none, which `clap` doesn't let through.
pub(crate) fn file(alloc: Global, words: &ArgMatches<'_>) -> Result<Option<String>, AllocError> {
    match words.get_str("file") {
        Some(file) => Ok(Some(String::from_str(alloc, file)?)),
        None => Ok(None),
    }
}

/// From which file into which a journal is to be brought over. Nothing if a file isn't named, which `clap` doesn't let through.
pub(crate) fn migration_of(
    alloc: Global,
    words: &ArgMatches<'_>,
) -> Result<Invocation, AllocError> {
    let Some(from) = file(alloc, words)? else {
        return Ok(Invocation::Nothing);
    };
    match words.get_str("to") {
        Some(to) => Ok(Invocation::Migrate(from, String::from_str(alloc, to)?)),
        None => Ok(Invocation::Nothing),
    }
}

/// What the words of an export ask for. Nothing if they name no file or neither table, which `clap` doesn't let through.
pub(crate) fn export_of(alloc: Global, words: &ArgMatches<'_>) -> Result<Invocation, AllocError> {
    let Some(file) = file(alloc, words)? else {
        return Ok(Invocation::Nothing);
    };
    match words.get_str("what") {
        Some("journal") => Ok(Invocation::ExportJournal(file)),
        Some("tickets") => Ok(Invocation::ExportTickets(file)),
        _ => Ok(Invocation::Nothing),
    }
}
