//! Callers of the terminal.
//!
//! A clause of `Terminal` says that it takes an event: after whatever history it stood before, it stands after that history with the event at
//! its head. So a caller of several goes on from what each call left, and what the replies are hangs on the whole history.
ghost use Rattle.std.specs.Prelude.{◌≡◌, ◌++◌, ◌∷◌, [], IfOk, List, map, reverse};
ghost use Rattle.wb_sics.specs.Event.{TerminalEvent, byte as byte_event};
ghost use Rattle.wb_sics.specs.Replies.{replies as replies_at};
ghost use Rattle.wb_sics.specs.Stands.{TerminalStands, TerminalTakesAll};

use std::alloc::{AllocError, Global};
use wb_instrument::Instrument;
use wb_scale::Scale;
use wb_sics::{Replies, Terminal};
use wb_window::{RingWindow, Window};

/// A terminal of an instrument, to which nothing has come. Refuses for want of memory alone.
pub fn open(alloc: Global, instrument: Instrument) -> Result<Terminal<RingWindow>, AllocError>
    ensures setup { IfOk result (λ terminal. terminal.scale.setup ≡ instrument) }
    ensures stands { IfOk result (λ terminal. TerminalStands terminal []) }
{
    let window = RingWindow::new(alloc, instrument.window() as usize, instrument.band())?;
    Ok(Terminal::new(Scale::new(instrument, window)))
}

/// Hands a line to the terminal, byte by byte, with its LF, and leaves the replies at the LF in the room.
pub fn ask<W: Window>(terminal: &mut Terminal<W>, line: &[u8], room: &mut Replies)
    ensures takes { TerminalTakesAll terminal.old terminal.new
        (byte_event 10 ∷ reverse (map byte_event line.now)) }
    ensures replies { (h : List TerminalEvent) → TerminalStands terminal.old h
        → room.new.items ≡ replies_at terminal.old.scale.setup
        (byte_event 10 ∷ reverse (map byte_event line.now) ++ h) }
{
    for byte in line {
        terminal.byte_into(*byte, room);
    }
    terminal.byte_into(b'\n', room);
}
