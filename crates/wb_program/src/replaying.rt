//! Replays of traces.
ghost use Rattle.sqlite.specs.Steps.{over_memory};
ghost use Rattle.std.specs.Prelude.{◌≡◌, ◌≤◌, ◌+◌, [], IfOk, IfSome, length};
ghost use Rattle.std.specs.Str.Lines.{lines};
ghost use Rattle.wb_program.specs.Replayed.{Ends, IsUntouched, ReplaysLines, at_first};
ghost use Rattle.wb_program.specs.Statuses.{status_of_replay};
ghost use Rattle.wb_program.specs.helpers.RunEnds.{WasRun};
ghost use Rattle.wb_station.specs.Stands.{Hears, StationStands};
ghost use Rattle.wb_store.specs.Journal.{StoreStands};

use crate::performing::perform;
use sqlite::{Connection, MemStore};
use std::alloc::{AllocError, Global};
use std::io::{Read, Write};
use thiserror::Error;
use wb_instrument::Instrument;
use wb_station::Station;
use wb_store::Store;
use wb_trace::{HEAD_ROOM, TraceFault, first_line, read_line, read_trace};
use wb_window::DequeWindow;

/// The status of any fault but refused words or a refused setup.
const FAULT: u8 = 1;

/// How a replay ended.
#[derive(Clone, Copy, Debug, PartialEq, Eq, Error)]
pub enum ReplayEnd {
    /// Every line was understood, and the replies to all of them were written.
    #[error("done")]
    Done,
    /// This line, counted from 1 over all lines, is the first that was not understood; those before it were replayed.
    #[error("trace line {0} not understood")]
    BadLine(u64),
    /// The trace is longer than 1,048,576 bytes, and nothing was run.
    #[error("trace too long")]
    TooLong,
    /// The reader failed, or its end did not come within 2,000,000 reads; nothing was run.
    #[error("read fault")]
    ReadFault,
    /// The writer failed; the lines before it were replayed.
    #[error("write fault")]
    WriteFault,
    /// Memory was refused, and nothing was run.
    #[error("want of memory")]
    Memory,
}

impl ReplayEnd {
    /// The exit status that stands for the end.
    pub fn status(self) -> u8
        ensures { result ≡ status_of_replay self }
    {
        match self {
            ReplayEnd::Done => 0,
            ReplayEnd::BadLine(_)
            | ReplayEnd::TooLong
            | ReplayEnd::ReadFault
            | ReplayEnd::WriteFault
            | ReplayEnd::Memory => FAULT,
        }
    }
}

/// Reads a trace to its end, and writes the printed form of what a station over a journal in memory puts out at it.
pub fn replay<R: Read, O: Write>(
    alloc: Global,
    instrument: Instrument,
    reader: &mut R,
    writer: &mut O,
) -> ReplayEnd
    ensures ends { Ends result instrument (R.remaining reader.old)
        (O.contents writer.old) (O.contents writer.new) }
    ensures untouched { IsUntouched result (O.contents writer.old) (O.contents writer.new) }
{
    let trace = match read_trace(alloc, reader) {
        Ok(trace) => trace,
        Err(TraceFault::TooLong) => return ReplayEnd::TooLong,
        Err(TraceFault::ReadFault) => return ReplayEnd::ReadFault,
        Err(TraceFault::Memory) => return ReplayEnd::Memory,
    };
    let Ok(mut room) = room_for(alloc, trace.len() + HEAD_ROOM) else {
        return ReplayEnd::Memory;
    };
    let Some(mut station) = station_in_memory(alloc, instrument) else {
        return ReplayEnd::Memory;
    };
    replay_lines(&mut station, trace.as_slice(), room.as_mut_slice(), writer)
}

/// A station over a journal in memory, to which nothing has come.
fn station_in_memory(
    alloc: Global,
    instrument: Instrument,
) -> Option<Station<DequeWindow, MemStore>>
    ensures setup { IfSome result (λ s. s.terminal.scale.setup ≡ instrument) }
    ensures stands { IfSome result (λ s. StationStands over_memory at_first s.terminal s.office []) }
    ensures hears { IfSome result (λ s. Hears s.terminal []) }
{
    let store = store_in_memory(alloc)?;
    let window = DequeWindow::new(alloc, instrument.window() as usize, instrument.band()).ok()?;
    match Station::open(alloc, instrument, window, store) {
        Ok(station) => Some(station),
        Err(_) => None,
    }
}

/// A store over an empty database in memory.
fn store_in_memory(alloc: Global) -> Option<Store<MemStore>>
    ensures { IfSome result (λ s. StoreStands over_memory s [] []) }
{
    match Connection::open_in_memory(alloc) {
        Ok(conn) => match Store::open(conn) {
            Ok(store) => Some(store),
            Err(_) => None,
        },
        Err(_) => None,
    }
}

/// Room for so many bytes.
fn room_for(alloc: Global, size: usize) -> Result<Vec<u8>, AllocError>
    ensures { IfOk result (λ room. length room.items ≡ size) }
{
    let mut room = Vec::new(alloc);
    room.resize(size, 0)?;
    Ok(room)
}

/// Replays the lines of a trace, up to the first that isn't understood.
fn replay_lines<O: Write>(
    station: &mut Station<DequeWindow, MemStore>,
    trace: &[u8],
    room: &mut [u8],
    writer: &mut O,
) -> ReplayEnd
    requires short { length trace.now ≤ 1_048_576 }
    requires room { length trace.now + 64 ≤ length room.old }
    ensures lines { StationStands over_memory at_first station.old.terminal station.old.office []
        → Hears station.old.terminal []
        → ReplaysLines result station.old.terminal.scale.setup (lines trace.now)
        (O.contents writer.old) (O.contents writer.new) }
    ensures run { WasRun result }
{
    let mut rest = trace;
    let mut number = 0u64;
    while let Some((line, after)) = first_line(rest) {
        number += 1;
        let Some(asked) = read_line(line, room) else {
            return ReplayEnd::BadLine(number);
        };
        match perform(station, asked, room, writer) {
            Ok(()) => rest = after,
            Err(_) => return ReplayEnd::WriteFault,
        }
    }
    ReplayEnd::Done
}
