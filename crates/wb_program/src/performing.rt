//! What the lines of a trace do to a station.
ghost use Rattle.std.specs.Prelude.{◌∷◌, [], false, OnOk, map, replicate, reverse};
ghost use Rattle.wb_trace.specs.TraceLines.{typed};
ghost use Rattle.wb_trace.specs.helpers.LineEvents.{IsReadLine, events_of};
ghost use Rattle.wb_program.specs.helpers.Performed.{Performed};
ghost use Rattle.wb_messages.specs.Happening.{IsTaken, byte as byte_happening, happening, reading as reading_happening};
ghost use Rattle.wb_window.specs.Reading.{IsReading};

use crate::printing::{WriteFault, print_output, print_replies};
use sqlite::Alter;
use std::io::Write;
use wb_station::{Event, Station};
use wb_trace::TraceLine;
use wb_window::{Reading, Window};

/// Does what a line asks for, with its bytes in the room, and prints what is put out.
pub(crate) fn perform<W: Window, D: Alter, O: Write>(
    station: &mut Station<W, D>,
    line: TraceLine<'_>,
    room: &[u8],
    writer: &mut O,
) -> Result<(), WriteFault>
    requires { IsReadLine room.now line }
    ensures { OnOk result (Performed D.Store (reverse (events_of room.now line.entry))
        station.old.terminal station.old.office station.new.terminal station.new.office
        (O.contents writer.old) (O.contents writer.new)) }
{
    match line {
        TraceLine::Nothing => Ok(()),
        TraceLine::Readings { reading, times } => take_readings(station, reading, times, writer),
        TraceLine::Text(text) => type_line(station, text, writer),
        TraceLine::Bytes(count) => type_text(station, &room[..count], writer),
        TraceLine::HangUp => take_event(station, &Event::Hangup, writer),
        TraceLine::Request { moment, length } => {
            let bytes = &room[..length];
            take_event(station, &Event::Office { moment, bytes }, writer)
        }
    }
}

fn take_readings<W: Window, D: Alter, O: Write>(
    station: &mut Station<W, D>,
    reading: Reading,
    times: u32,
    writer: &mut O,
) -> Result<(), WriteFault>
    requires { IsReading reading }
    ensures { OnOk result (Performed D.Store (replicate times (reading_happening reading))
        station.old.terminal station.old.office station.new.terminal station.new.office
        (O.contents writer.old) (O.contents writer.new)) }
{
    for _ in 0..times {
        take_reading(station, reading, writer)?;
    }
    Ok(())
}

/// Hands a reading to the station, and prints the replies at it. It costs no more than these do, since no request is at hand.
fn take_reading<W: Window, D: Alter, O: Write>(
    station: &mut Station<W, D>,
    reading: Reading,
    writer: &mut O,
) -> Result<(), WriteFault>
    requires { IsReading reading }
    ensures { OnOk result (Performed D.Store (reading_happening reading ∷ [])
        station.old.terminal station.old.office station.new.terminal station.new.office
        (O.contents writer.old) (O.contents writer.new)) }
{
    let replies = station.read(reading);
    print_replies(replies, writer)
}

/// Types a text and a line end.
fn type_line<W: Window, D: Alter, O: Write>(
    station: &mut Station<W, D>,
    text: &[u8],
    writer: &mut O,
) -> Result<(), WriteFault>
    ensures { OnOk result (Performed D.Store (reverse (typed text.now))
        station.old.terminal station.old.office station.new.terminal station.new.office
        (O.contents writer.old) (O.contents writer.new)) }
{
    type_text(station, text, writer)?;
    type_byte(station, b'\r', writer)?;
    type_byte(station, b'\n', writer)
}

fn type_text<W: Window, D: Alter, O: Write>(
    station: &mut Station<W, D>,
    text: &[u8],
    writer: &mut O,
) -> Result<(), WriteFault>
    ensures { OnOk result (Performed D.Store (reverse (map byte_happening text.now))
        station.old.terminal station.old.office station.new.terminal station.new.office
        (O.contents writer.old) (O.contents writer.new)) }
{
    for byte in text {
        type_byte(station, *byte, writer)?;
    }
    Ok(())
}

fn type_byte<W: Window, D: Alter, O: Write>(
    station: &mut Station<W, D>,
    byte: u8,
    writer: &mut O,
) -> Result<(), WriteFault>
    ensures { OnOk result (Performed D.Store (byte_happening byte ∷ [])
        station.old.terminal station.old.office station.new.terminal station.new.office
        (O.contents writer.old) (O.contents writer.new)) }
{
    take_event(station, &Event::Byte(byte), writer)
}

/// Hands an event to the station, and prints what it puts out.
fn take_event<W: Window, D: Alter, O: Write>(
    station: &mut Station<W, D>,
    event: &Event<'_>,
    writer: &mut O,
) -> Result<(), WriteFault>
    requires { IsTaken event.now }
    ensures { OnOk result (Performed D.Store (happening false event.now ∷ [])
        station.old.terminal station.old.office station.new.terminal station.new.office
        (O.contents writer.old) (O.contents writer.new)) }
{
    let output = station.turn(event);
    print_output(output, writer)
}
