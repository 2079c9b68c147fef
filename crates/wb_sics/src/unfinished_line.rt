//! The unfinished line.
ghost use Rattle.std.specs.Prelude.{◌≡◌, ◌∷◌, ◌++◌, [], List, ℕ, reverse, take};
ghost use Rattle.wb_sics.specs.Commands.{command_of};
ghost use Rattle.wb_sics.specs.Lines.{without_carriage_return};

use crate::command::{Command, parse_line};
use arrayvec::ArrayVec;

/// The first bytes of an unfinished line: as many as a command may have, a CR, and one more, by which a longer line is
/// known.
pub(crate) type Line = ArrayVec<u8, 42>;

/// Keeps a byte of a line, as far as there is room.
pub(crate) fn keep(line: &mut Line, byte: u8)
    ensures { (text : List ℕ) → line.old.items ≡ take 42 text
        → line.new.items ≡ take 42 (text ++ byte ∷ []) }
{
    if !line.is_full() {
        line.push(byte);
    }
}

/// The command of a line of which the first bytes were kept.
pub(crate) fn kept_command(line: &[u8]) -> Command
    ensures { (bytes : List ℕ) → line.now ≡ take 42 (reverse bytes)
        → result ≡ command_of (reverse (without_carriage_return bytes)) }
{
    match line.split_last() {
        Some((last, rest)) => {
            if *last == b'\r' {
                parse_line(rest)
            } else {
                parse_line(line)
            }
        }
        None => parse_line(line),
    }
}
