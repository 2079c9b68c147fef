//! A terminal with the replies at its newest event: what lies in the caller's memory.
ghost use Rattle.std.specs.Prelude.{◌≡◌, ◌∷◌, [], List, length, slice_get, take};
ghost use Rattle.wb_instrument.specs.Setup.{IsSetup, Setup as InstrumentSetup};
ghost use Rattle.wb_sics.specs.Event.{TerminalEvent, byte as byte_event, hang_up as hang_up_event, reading as reading_event};
ghost use Rattle.wb_terminal_c.specs.Copied.{copied};
ghost use Rattle.wb_terminal_c.specs.Heard.{heard_after, until_reply};
ghost use Rattle.wb_terminal_c.specs.Keeps.{KeepsTerminal};
ghost use Rattle.wb_terminal_c.specs.Passed.{Opens, setup_passed};
ghost use Rattle.wb_terminal_c.specs.Shown.{indication_after};
ghost use Rattle.wb_window.specs.Reading.{reading_of};

use crate::indication::{Indication, indication_of};
use crate::setup::{Setup, instrument, number};
use crate::window::PlacedWindow;
use wb_instrument::Instrument;
use wb_scale::Scale;
use wb_sics::{Replies, Terminal};
use wb_window::Reading;

/// What is answered to a call that was done.
pub(crate) const DONE: u32 = 0;

/// A terminal in the caller's memory.
#[derive(Drop)]
pub struct Handle {
    pub(crate) terminal: Terminal<PlacedWindow>,
    /// The replies at the newest event.
    pub(crate) replies: Replies,
}

/// Why a setup isn't one: the number of the first part that is outside its limits, or 0.
pub(crate) fn fault(setup: &Setup) -> u32
    ensures { Opens (setup_passed setup.now) result }
{
    match instrument(setup) {
        Ok(instrument) => {
            // what holds of every setup holds of this one
            let _window = instrument.window();
            DONE
        }
        Err(part) => number(part),
    }
}

/// A terminal of a setup, after nothing.
pub(crate) fn opened(setup: &Setup) -> Handle
    requires { IsSetup (setup_passed setup.now) }
    ensures { KeepsTerminal result (setup_passed setup.now) [] }
{
    match instrument(setup) {
        Ok(instrument) => of_instrument(instrument),
        Err(_) => unreachable!(),
    }
}

fn of_instrument(instrument: Instrument) -> Handle
    ensures { KeepsTerminal result instrument [] }
{
    let window = PlacedWindow::new(instrument.window() as usize, instrument.band());
    Handle {
        terminal: Terminal::new(Scale::new(instrument, window)),
        replies: Replies::new(),
    }
}

/// Takes a reading in tenths of e; any load out of the converter's range is a lost reading.
pub(crate) fn read(handle: &mut Handle, tenths: i64) -> u32
    ensures keeps { (s : InstrumentSetup) (h : List TerminalEvent) → KeepsTerminal handle.old s h
        → KeepsTerminal handle.new s (reading_event (reading_of tenths) ∷ h) }
    ensures done { result ≡ 0 }
{
    handle
        .terminal
        .reading_into(Reading::of(tenths), &mut handle.replies);
    DONE
}

/// Takes a byte of the stream.
pub(crate) fn hear(handle: &mut Handle, byte: u8) -> u32
    ensures keeps { (s : InstrumentSetup) (h : List TerminalEvent) → KeepsTerminal handle.old s h
        → KeepsTerminal handle.new s (byte_event byte ∷ h) }
    ensures done { result ≡ 0 }
{
    handle.terminal.byte_into(byte, &mut handle.replies);
    DONE
}

/// Takes bytes of the stream, up to the first at which there is a reply, and tells how many it took.
pub(crate) fn hear_all(handle: &mut Handle, bytes: &[u8]) -> usize
    ensures { (s : InstrumentSetup) (h : List TerminalEvent) → KeepsTerminal handle.old s h
        → KeepsTerminal handle.new s (heard_after (take result bytes.now) h)
        × (result ≡ until_reply s h bytes.now) }
{
    for i in 0..bytes.len() {
        hear(handle, bytes[i]);
        if !handle.replies.is_empty() {
            return i + 1;
        }
    }
    bytes.len()
}

/// The connection ended.
pub(crate) fn hang_up(handle: &mut Handle) -> u32
    ensures keeps { (s : InstrumentSetup) (h : List TerminalEvent) → KeepsTerminal handle.old s h
        → KeepsTerminal handle.new s (hang_up_event ∷ h) }
    ensures done { result ≡ 0 }
{
    handle.terminal.hangup();
    handle.replies.clear();
    DONE
}

/// How many replies there are at the newest event.
pub(crate) fn count(handle: &mut Handle) -> usize
    ensures value { result ≡ length handle.old.replies.items }
    ensures unchanged { handle.new ≡ handle.old }
{
    handle.replies.len()
}

/// Copies a reply at the newest event into the buffer, with its CR LF, and tells how many bytes it has. If there is no such reply, or
/// not enough room, it copies nothing and tells 0.
pub(crate) fn copy_reply(handle: &mut Handle, place: usize, buffer: &mut [u8]) -> usize
    ensures count { result ≡ (copied (slice_get handle.old.replies.items place) buffer.old).0 }
    ensures buffer { buffer.new ≡ (copied (slice_get handle.old.replies.items place) buffer.old).1 }
    ensures unchanged { handle.new ≡ handle.old }
{
    let Some(reply) = handle.replies.as_slice().get(place) else {
        return 0;
    };
    let text = reply.bytes();
    let bytes = text.as_str().as_bytes();
    if buffer.len() < bytes.len() {
        return 0;
    }
    let (front, _) = buffer.split_at_mut(bytes.len());
    front.copy_from_slice(bytes);
    bytes.len()
}

/// Tells what is indicated.
pub(crate) fn indicate(handle: &mut Handle, shown: &mut Indication) -> u32
    ensures shown { (s : InstrumentSetup) (h : List TerminalEvent) → KeepsTerminal handle.old s h
        → shown.new ≡ indication_after s h }
    ensures unchanged { handle.new ≡ handle.old }
    ensures done { result ≡ 0 }
{
    let scale = handle.terminal.scale();
    *shown = indication_of(scale.instrument(), scale.indicated());
    DONE
}
