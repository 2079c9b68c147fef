//! Days at a road weighbridge, e 20 kg and Max 60,000 kg: what is asked for, and what is answered.
ghost use Rattle.sqlite.specs.Held.{state};
ghost use Rattle.std.specs.Prelude.{◌≡◌, false};

mod order;
mod rows;

use arrayvec::ArrayString;
use itoa::Buffer;
use sqlite::{Alter, Connection};
use std::alloc::Global;
use std::process::Abort;
use std::test::Fail;
use wb_fixtures::ROAD;
use wb_instrument::{Instrument, Parts};
use wb_journal::{Key, Kind, Moment, Plate};
use wb_office::{Answer, EntryName, Office, Request};
use wb_scale::Scale;
use wb_store::Store;
use wb_window::{Reading, RingWindow};

/// A step of a day.
#[derive(Clone, Copy, Drop)]
enum Step {
    /// Four readings of one load, in tenths.
    Load(i64),
    /// One reading, in tenths.
    Read(i64),
    /// A preset tare in grams.
    Preset(u64),
    /// A weighed tare.
    Tare,
    /// A weighing is asked for at a moment, under a key; what the answer begins with, or the name of its refusal.
    Weigh(u64, &'static str, Kind, &'static str, &'static str),
    /// A void is asked for.
    Void(u64, &'static str, &'static str, &'static str),
    /// Another request.
    Ask(u64, Asks, &'static str),
    /// The tables are changed by another hand, and opened again.
    Change(&'static str),
}

/// The requests without a key.
#[derive(Clone, Copy, Drop)]
enum Asks {
    Ticket(u32),
    Indication,
    Journal,
    Tickets,
    Purge,
    Check,
}

/// A road weighbridge with so many places.
fn bridge(alloc: Global, capacity: u32) -> Result<Scale<RingWindow>, Fail> {
    let instrument = Instrument::new(Parts { capacity, ..ROAD })?;
    let window = RingWindow::new(alloc, instrument.window() as usize, instrument.band())?;
    Ok(Scale::new(instrument, window))
}

/// The office over a connection.
fn office<D: Alter + Drop>(conn: Connection<D>) -> Result<Office<D>, Fail> {
    if !conn.is_autocommit() {
        return Err("in a transaction".into());
    }
    match Store::open(conn) {
        Ok(store) => Ok(Office::new(store)),
        Err((fault, _)) => Err(fault.into()),
    }
}

/// A day of these steps, from an empty journal.
fn day(rt: &impl Abort, alloc: Global, capacity: u32, steps: &[Step]) -> Result<(), Fail> {
    let scale = bridge(alloc, capacity)?;
    let office = office(Connection::open_in_memory(alloc)?)?;
    let done = run(alloc, scale, office, steps)?;
    assert!(rt; done == steps.len(), "step {done}");
    Ok(())
}

/// How many of the steps are as wanted, up to the first that isn't.
fn run<D: Alter + Drop>(
    alloc: Global,
    scale: Scale<RingWindow>,
    office: Office<D>,
    steps: &[Step],
) -> Result<usize, Fail> {
    let mut scale = scale;
    let mut office = office;
    for (place, step) in steps.iter().enumerate() {
        if let Step::Change(sql) = step {
            office = changed(office, sql)?;
        } else if !is_done(alloc, &mut office, &mut scale, step)? {
            return Ok(place);
        }
    }
    Ok(steps.len())
}

/// Whether a step is answered as is wanted.
fn is_done<D: Alter>(
    alloc: Global,
    office: &mut Office<D>,
    scale: &mut Scale<RingWindow>,
    step: &Step,
) -> Result<bool, Fail> {
    match step {
        Step::Weigh(at, key, kind, plate, wanted) => {
            let request = weighing(key, *kind, plate)?;
            is_answered(alloc, office, scale, *at, request, wanted)
        }
        Step::Void(at, key, plate, wanted) => {
            is_answered(alloc, office, scale, *at, void(key, plate)?, wanted)
        }
        Step::Ask(at, asks, wanted) => {
            is_answered(alloc, office, scale, *at, request(asks), wanted)
        }
        _ => {
            move_scale(scale, step);
            Ok(true)
        }
    }
}

/// What a step does to the scale.
fn move_scale(scale: &mut Scale<RingWindow>, step: &Step) {
    match step {
        Step::Load(tenths) => load(scale, *tenths),
        Step::Read(tenths) => scale.read(Reading::of(*tenths)),
        Step::Preset(grams) => {
            scale.preset(*grams);
        }
        Step::Tare => {
            scale.tare();
        }
        _ => {}
    }
}

fn load(scale: &mut Scale<RingWindow>, tenths: i64) {
    for _ in 0..4 {
        scale.read(Reading::of(tenths));
    }
}

fn weighing(key: &str, kind: Kind, plate: &str) -> Result<Request, Fail> {
    Ok(Request::Weigh {
        key: Key::new(key).ok_or("key")?,
        kind,
        plate: Plate::new(plate).ok_or("plate")?,
    })
}

fn void(key: &str, plate: &str) -> Result<Request, Fail> {
    Ok(Request::VoidOpen {
        key: Key::new(key).ok_or("key")?,
        plate: Plate::new(plate).ok_or("plate")?,
    })
}

fn request(asks: &Asks) -> Request {
    match asks {
        Asks::Ticket(number) => Request::Ticket(*number),
        Asks::Indication => Request::Indication,
        Asks::Journal => Request::JournalCsv,
        Asks::Tickets => Request::TicketsCsv,
        Asks::Purge => Request::Purge,
        Asks::Check => Request::Check,
    }
}

/// Whether the text of an answer begins as is wanted, or its refusal has that name.
fn is_answered<D: Alter>(
    alloc: Global,
    office: &mut Office<D>,
    scale: &mut Scale<RingWindow>,
    at: u64,
    request: Request,
    wanted: &str,
) -> Result<bool, Fail> {
    let at = Moment::new(at).ok_or("moment")?;
    let mut name = None;
    let is_weighing = matches!(request, Request::Weigh { .. } | Request::VoidOpen { .. });
    let result = office.answer_naming(alloc, scale, at, request, &mut name);
    Ok(match result {
        Ok(answer) => is_wanted(&answer, wanted) && is_named(&answer, name.as_ref(), is_weighing),
        Err(refusal) => refusal.name() == wanted && name.is_none(),
    })
}

/// Returns true if a weighing or void is answered with the name of its entry, and every other request without a name.
fn is_named(answer: &Answer, name: Option<&EntryName>, is_weighing: bool) -> bool {
    match (answer, name) {
        (Answer::Slip(text) | Answer::Ticket(text), Some(name)) => {
            is_weighing && is_of(text.as_str(), name).unwrap_or(false)
        }
        (_, Some(_)) => false,
        (_, None) => !is_weighing,
    }
}

/// Returns true if the name has the number of a slip or ticket and its last digest, which is its own.
fn is_of(text: &str, name: &EntryName) -> Option<bool> {
    let (title, _) = text.split_once("\n")?;
    let (_, number) = title.rsplit_once(" ")?;
    let (_, end) = text.rsplit_once("DIGEST ")?;
    let (digest, _) = end.split_once("\n")?;
    Some(number.parse::<u32>().ok()? == name.number && digest == name.digest.as_str())
}

fn is_wanted(answer: &Answer, wanted: &str) -> bool {
    match answer {
        Answer::Slip(text) | Answer::Ticket(text) | Answer::Text(text) => {
            text.as_str().starts_with(wanted)
        }
        Answer::Csv(text) => text.as_slice() == wanted.as_bytes(),
        Answer::Purged(count) => counted("PURGED ", *count).as_str() == wanted,
        Answer::Sound(count) => counted("SOUND ", *count).as_str() == wanted,
        Answer::Damaged(number) => counted("DAMAGED ", *number as usize).as_str() == wanted,
    }
}

fn counted(name: &str, count: usize) -> ArrayString<64> {
    let mut text = ArrayString::new();
    let mut buffer = Buffer::new();
    let _ = text.try_push_str(name);
    let _ = text.try_push_str(buffer.format(count));
    text
}

/// The office over its tables as they were changed.
fn changed<D: Alter + Drop>(previous: Office<D>, sql: &str) -> Result<Office<D>, Fail> {
    let mut conn = previous.into_store().into_connection();
    conn.execute_batch(sql)?;
    office(conn)
}
