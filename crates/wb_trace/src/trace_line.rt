//! A line of a trace, read.
ghost use Rattle.std.specs.Option.{option_copied};
ghost use Rattle.std.specs.Prelude.{◌≡◌, ◌+◌, ◌*◌, ◌≤◌, ℕ, List, IfSome, length, option_map};
ghost use Rattle.wb_trace.specs.TraceLines.{bytes_line, hang_up_line, line_events, of_text, reading_line, reading_of_word, text_typed, without_blank};
ghost use Rattle.wb_trace.specs.helpers.LineEvents.{IsReadLine, events_of};
ghost use Rattle.wb_window.specs.Reading.{IsReading};

use crate::numerals::{count, hexadecimal};
use crate::request_line::{request_bytes_line, request_line};
use wb_input::{number, split_at_first};
use wb_journal::Moment;
use wb_window::Reading;

/// What a line of a trace asks for.
#[derive(Clone, Copy, Debug)]
pub enum TraceLine<'a> {
    /// An empty line, or a comment.
    Nothing,
    /// So many times this reading.
    Readings { reading: Reading, times: u32 },
    /// A text and a line end, typed at the terminal.
    Text(&'a [u8]),
    /// Bytes of the terminal's stream: the first so many of the room.
    Bytes(usize),
    /// The terminal's connection ends.
    HangUp,
    /// A request to the office at a moment: the first so many bytes of the room.
    Request { moment: Moment, length: usize },
}

/// What a line asks for, with its bytes in the room; none if it isn't understood.
pub fn read_line<'a>(line: &'a [u8], room: &mut [u8]) -> Option<TraceLine<'a>>
    requires { length line.now + 64 ≤ length room.old }
    ensures events { option_map (events_of room.new) result ≡ line_events line.now }
    ensures read { IfSome result (IsReadLine room.new) }
    ensures room { length room.new ≡ length room.old }
{
    match line {
        [] => Some(TraceLine::Nothing),
        [kind, rest @ ..] => {
            if *kind == b'#' {
                Some(TraceLine::Nothing)
            } else if *kind == b'r' {
                readings(rest)
            } else if *kind == b't' {
                Some(TraceLine::Text(typed_text(rest)?))
            } else if *kind == b'b' {
                bytes(after_blank(rest)?, room)
            } else if *kind == b'h' {
                hang_up(rest)
            } else if *kind == b'o' {
                request_line(after_blank(rest)?, room)
            } else if *kind == b'x' {
                request_bytes_line(after_blank(rest)?, room)
            } else {
                None
            }
        }
    }
}

/// What stands after one blank.
fn after_blank(rest: &[u8]) -> Option<&[u8]>
    ensures { option_copied result ≡ without_blank rest.now }
{
    match rest {
        [] => None,
        [first, text @ ..] => { if *first == b' ' { Some(text) } else { None } }
    }
}

/// Nothing, or what stands after one blank.
fn typed_text(rest: &[u8]) -> Option<&[u8]>
    ensures { option_copied result ≡ text_typed rest.now }
{
    match rest {
        [] => Some(rest),
        [first, text @ ..] => { if *first == b' ' { Some(text) } else { None } }
    }
}

/// After one blank a reading, then optionally a blank and a count.
fn readings(rest: &[u8]) -> Option<TraceLine<'static>>
    ensures events { (room : List ℕ)
        → option_map (events_of room) result ≡ of_text reading_line (without_blank rest.now) }
    ensures read { (room : List ℕ) → IfSome result (IsReadLine room) }
{
    let text = after_blank(rest)?;
    match split_at_first(text, b' ') {
        Some((word, times)) => {
            let reading = reading_word(word)?;
            let times = count(times)?;
            Some(TraceLine::Readings { reading, times })
        }
        None => {
            let reading = reading_word(text)?;
            Some(TraceLine::Readings { reading, times: 1 })
        }
    }
}

/// `lost`, or a number of tenths.
fn reading_word(word: &[u8]) -> Option<Reading>
    ensures value { result ≡ reading_of_word word.now }
    ensures in_range { IfSome result IsReading }
{
    if word == b"lost".as_slice() {
        return Some(Reading::Lost);
    }
    Some(Reading::of(number(word)?))
}

/// At least one byte in hexadecimal, decoded into the room.
fn bytes(digits: &[u8], room: &mut [u8]) -> Option<TraceLine<'static>>
    requires { length digits.now ≤ 2 * length room.old + 1 }
    ensures events { option_map (events_of room.new) result ≡ bytes_line digits.now }
    ensures read { IfSome result (IsReadLine room.new) }
    ensures room { length room.new ≡ length room.old }
{
    Some(TraceLine::Bytes(hexadecimal(digits, room)?))
}

fn hang_up(rest: &[u8]) -> Option<TraceLine<'static>>
    ensures events { (room : List ℕ) → option_map (events_of room) result ≡ hang_up_line rest.now }
    ensures read { (room : List ℕ) → IfSome result (IsReadLine room) }
{
    if rest.is_empty() {
        Some(TraceLine::HangUp)
    } else {
        None
    }
}
