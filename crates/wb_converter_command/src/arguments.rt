//! Arguments that more than one subcommand has, and what was given for them.
use clap::{Arg, ArgAction, ArgMatches, Command};
use std::alloc::{AllocError, Global};

/// A text that has to be given: its name, what it stands for, and its help.
pub(crate) struct Text(
    pub(crate) &'static str,
    pub(crate) &'static str,
    pub(crate) &'static str,
);

static CALIBRATION: Text = Text(
    "calibration",
    "FILE",
    "file of the calibrations; the points of an unfinished one are in the file FILE.points next to it",
);

pub(crate) fn text_argument<'a>(alloc: Global, text: &Text) -> Arg<'a> {
    let Text(name, value, help) = *text;
    Arg::new(alloc, name)
        .long(name)
        .value_name(value)
        .required(true)
        .action(ArgAction::Set)
        .help(help)
}

pub(crate) fn flag<'a>(alloc: Global, name: &'a str, help: &'a str) -> Arg<'a> {
    Arg::new(alloc, name)
        .long(name)
        .action(ArgAction::SetTrue)
        .help(help)
}

/// A subcommand over the file of the calibrations.
pub(crate) fn over_calibration<'a>(
    alloc: Global,
    name: &'a str,
    about: &'a str,
    example: &'a str,
) -> Result<Command<'a>, AllocError> {
    Command::new(alloc, name)
        .about(about)
        .after_help(example)
        .arg(text_argument(alloc, &CALIBRATION))
}

/// The text that the words give for a name. None if they give none, which `clap` doesn't let through.
pub(crate) fn text_of(
    alloc: Global,
    words: &ArgMatches<'_>,
    name: &str,
) -> Result<Option<String>, AllocError> {
    match words.get_str(name) {
        Some(text) => Ok(Some(String::from_str(alloc, text)?)),
        None => Ok(None),
    }
}
