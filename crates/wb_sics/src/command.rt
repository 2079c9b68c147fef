//! The command of a line (MT-SICS levels 0 and 1).
ghost use Rattle.std.specs.Prelude.{◌≡◌};
ghost use Rattle.wb_sics.specs.Commands.{command_of, preset_command, tare_command, word_command};

use crate::grams::grams_of;
use wb_input::split_at_first;

/// The characters of a line that may be a command.
const LINE_LIMIT: usize = 40;

/// What a line asks.
#[derive(Clone, Copy, Drop, Debug, PartialEq, Eq)]
pub enum Command {
    /// `S`: the weight, once it can be given.
    Weight,
    /// `SI`: the weight at once.
    WeightNow,
    /// `SIR`: the weight at each reading from now on.
    Repeat,
    /// `Z`: zero setting, when stable.
    Zero,
    /// `T`: tare balancing, when stable.
    Tare,
    /// `TA`: the tare in force.
    TareValue,
    /// `TA value kg`: a preset tare of so many grams.
    PresetTare(u64),
    /// `TA`, a blank and any other text.
    BadTare,
    /// `TAC`: the tare is cleared.
    ClearTare,
    /// `@`: the waiting command is dropped, the repetition ended and the tare cleared.
    Cancel,
    /// `I0`: the commands.
    Commands,
    /// `I4`: the serial.
    SerialNumber,
    /// Any other text.
    Unknown,
}

/// The command of a line, given without its line end.
pub fn parse_line(text: &[u8]) -> Command
    ensures { result ≡ command_of text.now }
{
    if LINE_LIMIT < text.len() {
        return Command::Unknown;
    }
    match text.strip_prefix(b"TA ".as_slice()) {
        Some(rest) => preset_tare(rest),
        None => word(text),
    }
}

/// The command that is this whole text.
fn word(text: &[u8]) -> Command
    ensures { result ≡ word_command text.now }
{
    if text == b"S".as_slice() {
        Command::Weight
    } else if text == b"SI".as_slice() {
        Command::WeightNow
    } else if text == b"SIR".as_slice() {
        Command::Repeat
    } else if text == b"Z".as_slice() {
        Command::Zero
    } else if text == b"T".as_slice() {
        Command::Tare
    } else if text == b"TA".as_slice() {
        Command::TareValue
    } else if text == b"TAC".as_slice() {
        Command::ClearTare
    } else if text == b"@".as_slice() {
        Command::Cancel
    } else if text == b"I0".as_slice() {
        Command::Commands
    } else if text == b"I4".as_slice() {
        Command::SerialNumber
    } else {
        Command::Unknown
    }
}

/// A preset tare: a value, one blank, and `kg`.
fn preset_tare(text: &[u8]) -> Command
    ensures { result ≡ tare_command text.now }
{
    match split_at_first(text, b' ') {
        Some((value, unit)) => {
            if unit == b"kg".as_slice() {
                preset_or_bad(grams_of(value))
            } else {
                Command::BadTare
            }
        }
        None => Command::BadTare,
    }
}

fn preset_or_bad(grams: Option<u64>) -> Command
    ensures { result ≡ preset_command grams }
{
    match grams {
        Some(grams) => Command::PresetTare(grams),
        None => Command::BadTare,
    }
}
