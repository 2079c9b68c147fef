//! The words of making a calibration.
use crate::arguments::over_calibration;
use crate::filter_words::filter_argument;
use clap::{Arg, ArgAction, ArgMatches, Command, value_parser};
use std::alloc::{AllocError, Global};

/// The greatest load that a point can have, in tenths of the verification scale interval.
const GREATEST_LOAD: i64 = 2_000_000;

/// The greatest load in kilograms, that of the greatest interval, and this interval.
const GREATEST_KILOGRAMS: i64 = 10_000_000;

const GREATEST_INTERVAL: i64 = 50;

/// The most lines of which a mean is taken.
const MOST_LINES: i64 = 10_000;

/// The greatest spread that can be allowed, in counts.
const GREATEST_SPREAD: i64 = 4_294_967_295;

const POINT_EXAMPLE: &str =
    "Example, with 8000 kg of test weights on a bridge whose interval is 20 kg:
  modbus --tcp 192.168.1.10 .. | weighbridge-converter point --calibration calibration --load-kg 8000 --interval 20 --spread 20
prints that these are 4000 tenths, reads 50 lines of counts, and prints their mean and spread. It keeps the mean as a point, unless the
spread is more than 20 counts. --load 4000 is the same load.";

const FINISH_EXAMPLE: &str = "Example:
  weighbridge-converter finish --calibration calibration --filter median 5
makes a calibration of the points that were taken, with this filter, appends it to the file, and prints its number and its digest. If no
points were taken, the new calibration has the points of the newest one, and this filter in place of its own. mean 1 is no filter.";

/// The load on the bridge while a point is taken.
#[derive(Clone, Copy)]
pub enum Load {
    /// In tenths of the verification scale interval.
    Tenths(i32),
    /// In kilograms, and the verification scale interval in kilograms.
    Kilograms(u32, u32),
}

/// How a point is taken.
#[derive(Clone, Copy)]
pub struct Sampling {
    /// The load.
    pub load: Load,
    /// Of how many lines the mean is taken.
    pub lines: u32,
    /// The greatest spread that is accepted.
    pub spread: u32,
}

/// A number: its name, what it stands for, its range, and its help.
fn number_argument<'a>(
    alloc: Global,
    name: &'a str,
    value: &'a str,
    least: i64,
    most: i64,
    help: &'a str,
) -> Arg<'a> {
    Arg::new(alloc, name)
        .long(name)
        .value_name(value)
        .action(ArgAction::Set)
        .value_parser(value_parser!(u32).range(least..=most))
        .help(help)
}

fn load_argument<'a>(alloc: Global) -> Arg<'a> {
    let help = "load on the bridge in tenths of the verification scale interval: 0 to 2000000";
    number_argument(alloc, "load", "TENTHS", 0, GREATEST_LOAD, help)
}

/// The load in kilograms, in place of the one in tenths.
fn kilograms_argument<'a>(alloc: Global) -> Result<Arg<'a>, AllocError> {
    let help =
        "load on the bridge in kg, in place of --load; it must be a whole number of tenths of --interval";
    let load = number_argument(alloc, "load-kg", "KG", 0, GREATEST_KILOGRAMS, help);
    load.required_unless_present("load")?
        .conflicts_with("load")?
        .requires_arg("interval")
}

fn interval_argument<'a>(alloc: Global) -> Result<Arg<'a>, AllocError> {
    let help = "with --load-kg: verification scale interval e in kg: 1 to 50";
    let interval = number_argument(alloc, "interval", "KG", 1, GREATEST_INTERVAL, help);
    interval.requires_arg("load-kg")?.conflicts_with("load")
}

fn spread_argument<'a>(alloc: Global) -> Arg<'a> {
    let help = "greatest spread of the lines that is accepted, in counts";
    number_argument(alloc, "spread", "COUNTS", 0, GREATEST_SPREAD, help).required(true)
}

fn lines_argument<'a>(alloc: Global) -> Arg<'a> {
    let help = "number of lines whose mean is taken: 1 to 10000";
    number_argument(alloc, "lines", "LINES", 1, MOST_LINES, help).default_value("50")
}

/// The subcommand `point`.
pub(crate) fn point_command<'a>(alloc: Global) -> Result<Command<'a>, AllocError> {
    let about = "takes a point of a calibration from lines of counts on standard input";
    let point = over_calibration(alloc, "point", about, POINT_EXAMPLE)?;
    let point = point.arg(load_argument(alloc))?;
    let point = point.arg(kilograms_argument(alloc)?)?;
    let point = point.arg(interval_argument(alloc)?)?;
    let point = point.arg(spread_argument(alloc))?;
    point.arg(lines_argument(alloc))
}

/// The subcommand `finish`.
pub(crate) fn finish_command<'a>(alloc: Global) -> Result<Command<'a>, AllocError> {
    let about = "makes a calibration of the points that were taken";
    let finish = over_calibration(alloc, "finish", about, FINISH_EXAMPLE)?;
    let help =
        "filter: median or mean of the last 1 to 32 readings; without this option there is no filter";
    finish.arg(filter_argument(alloc, help))
}

/// How the words have a point taken. None if a word is missing, which `clap` doesn't let through.
pub(crate) fn sampling_of(words: &ArgMatches<'_>) -> Option<Sampling> {
    Some(Sampling {
        load: load_of(words)?,
        lines: words.get_one::<u32>("lines")?,
        spread: words.get_one::<u32>("spread")?,
    })
}

fn load_of(words: &ArgMatches<'_>) -> Option<Load> {
    match words.get_one::<u32>("load") {
        Some(tenths) => Some(Load::Tenths(i32::try_from(tenths).ok()?)),
        None => Some(Load::Kilograms(
            words.get_one::<u32>("load-kg")?,
            words.get_one::<u32>("interval")?,
        )),
    }
}
