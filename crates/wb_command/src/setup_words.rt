//! The words of a setup.
ghost use Rattle.std.specs.Prelude.{◌≡◌};

use crate::words::REFUSED;
use clap::{Arg, ArgAction, ArgMatches, Command, value_parser};
use std::alloc::{AllocError, Global};
use thiserror::Error;
use wb_instrument::{Instrument, PartFault, Parts};

/// The first part of a setup that is refused.
#[derive(Clone, Copy, Debug, PartialEq, Eq, Error)]
#[error("setup refused: {0}")]
pub struct SetupFault(PartFault);

impl SetupFault {
    /// The exit status that stands for it.
    pub fn status(self) -> u8
        ensures { result ≡ 2 }
    {
        REFUSED
    }
}

/// What the value of a part of the setup is.
#[derive(Clone, Copy)]
enum Value {
    Number,
    Text,
}

/// A part of the setup: its name, its value, the default of a road weighbridge, and its help.
struct Part(&'static str, Value, &'static str, &'static str);

/// The parts of the setup, in the order in which help shows them.
static PARTS: [Part; 9] = [
    Part(
        "interval",
        Value::Number,
        "20",
        "verification scale interval e in kg: 1, 2, 5, 10, 20 or 50",
    ),
    Part(
        "max",
        Value::Number,
        "60000",
        "greatest load Max in kg: 500 to 10000 times e",
    ),
    Part(
        "window",
        Value::Number,
        "4",
        "readings of the stability window: 4 to 64",
    ),
    Part(
        "band",
        Value::Number,
        "2",
        "stability band in tenths of e: 1 or 2",
    ),
    Part("pace", Value::Number, "10", "readings a second: 2 to 50"),
    Part(
        "wait",
        Value::Number,
        "20",
        "readings that a waiting command waits: 1 to 600",
    ),
    Part(
        "serial",
        Value::Text,
        "WB01",
        "serial of the instrument: 1 to 16 of A-Z and 0-9",
    ),
    Part(
        "retention",
        Value::Number,
        "90",
        "days that an entry is kept: 1 to 3650",
    ),
    Part(
        "capacity",
        Value::Number,
        "1000",
        "places of the journal: 2 to 100000",
    ),
];

/// The option that gives a part of the setup.
fn option<'a>(alloc: Global, part: &Part) -> Arg<'a> {
    let Part(name, value, default, help) = *part;
    let option = Arg::new(alloc, name)
        .long(name)
        .action(ArgAction::Set)
        .default_value(default)
        .help(help);
    match value {
        Value::Number => option.value_parser(value_parser!(u32)),
        Value::Text => option,
    }
}

/// The command with the nine parts of the setup.
pub(crate) fn with_setup<'a>(
    alloc: Global,
    command: Command<'a>,
) -> Result<Command<'a>, AllocError> {
    let mut command = command;
    for part in PARTS.as_slice() {
        command = command.arg(option(alloc, part))?;
    }
    Ok(command)
}

/// The instrument that the words set up. None if a part is missing, which `clap` doesn't let through.
pub(crate) fn instrument(words: &ArgMatches<'_>) -> Option<Result<Instrument, SetupFault>> {
    match parts(words) {
        Some(parts) => Some(Instrument::new(parts).map_err(SetupFault)),
        None => None,
    }
}

/// Names the option of the part that is refused, its value, and what is allowed.
pub(crate) fn explanation(
    alloc: Global,
    words: &ArgMatches<'_>,
    fault: SetupFault,
) -> Result<String, AllocError> {
    let SetupFault(part) = fault;
    let (name, limits) = limits_of(part);
    let value = match part {
        PartFault::Serial => String::from_str(alloc, words.get_str(name).unwrap_or(""))?,
        _ => format!(in alloc; "{}", number_of(words, name))?,
    };
    let range = match part {
        PartFault::Max => range_of_max(alloc, number_of(words, "interval"))?,
        _ => String::new(alloc),
    };
    format!(in alloc;
        "--{name} {value}: it is refused, because {limits}{range}; give a value within these limits"
    )
}

/// Returns the limits of Max for an interval of `interval_kg` kilograms.
fn range_of_max(alloc: Global, interval_kg: u32) -> Result<String, AllocError> {
    let least = interval_kg.saturating_mul(500);
    let most = interval_kg.saturating_mul(10_000);
    format!(in alloc; ", so {least} to {most} kg with --interval {interval_kg}")
}

fn number_of(words: &ArgMatches<'_>, name: &str) -> u32 {
    words.get_one::<u32>(name).unwrap_or(0)
}

/// Returns the option of a part of the setup, and what its value may be.
fn limits_of(part: PartFault) -> (&'static str, &'static str) {
    match part {
        PartFault::Interval => ("interval", "e is 1, 2, 5, 10, 20 or 50 kg"),
        PartFault::Max => ("max", "Max is a whole multiple of e, 500 to 10000 times e"),
        PartFault::Window => ("window", "a window has 4 to 64 readings"),
        PartFault::Band => ("band", "the band is 1 or 2 tenths of e"),
        PartFault::Pace => ("pace", "2 to 50 readings come in a second"),
        PartFault::Wait => ("wait", "a command waits for 1 to 600 readings"),
        PartFault::Serial => ("serial", "a serial has 1 to 16 characters of A-Z and 0-9"),
        PartFault::Retention => ("retention", "an entry is kept for 1 to 3650 days"),
        PartFault::Capacity => ("capacity", "a journal has 2 to 100000 places"),
    }
}

/// The parts of the setup that the words give.
fn parts<'a>(words: &ArgMatches<'a>) -> Option<Parts<'a>> {
    Some(Parts {
        interval_kg: words.get_one::<u32>("interval")?,
        max_kg: words.get_one::<u32>("max")?,
        window: words.get_one::<u32>("window")?,
        band: words.get_one::<u32>("band")?,
        pace: words.get_one::<u32>("pace")?,
        wait: words.get_one::<u32>("wait")?,
        serial: words.get_str("serial")?,
        retention_days: words.get_one::<u32>("retention")?,
        capacity: words.get_one::<u32>("capacity")?,
    })
}
