//! What a station over files is asked before a stop, at it and after it, and whether it is answered as is wanted.
use super::days::{Step, is_response, is_told, station, take};
use sqlite::{Alter, Connection, FileStore, Files, Options};
use sqlite_disk::{Disk, Fuse, Memory};
use std::alloc::Global;
use std::test::Fail;
use wb_station::{Notice, Station};
use wb_store::{Store, StoreFault};
use wb_window::{RingWindow, Window};

/// Disks in memory, each of which may fail.
pub(super) type Fused = Files<Fuse<Memory>>;

/// The first second in which both entries are of age.
pub(super) const OF_AGE: u64 = 1_749_427_200;

pub(super) const SECOND: &str =
    "POST /weighings HTTP/1.1\r\nContent-Length: 30\r\n\r\nkey=K2&kind=second&plate=AB-12";

pub(super) const CHECK: &str = "GET /check HTTP/1.1\r\n\r\n";

const STORE_REFUSED: &str = "503 refused 15 store\n";

/// What a station does once its store is closed.
const CLOSED: [Step; 2] = [
    Step::Ask(OF_AGE, CHECK, STORE_REFUSED),
    Step::Ask(OF_AGE, SECOND, STORE_REFUSED),
];

/// A weight that the terminal still shows then.
const WEIGHED: [Step; 2] = [
    Step::Load(9_170, 4, ""),
    Step::Line("SI", "S S      18340 kg\r\n"),
];

/// What it goes on to answer then.
const INDICATED: [Step; 1] = [Step::Ask(
    OF_AGE,
    "GET /indication HTTP/1.1\r\n\r\n",
    "200 STABLE G      18340 kg N      18340 kg\n",
)];

/// What is asked before a stop, at it and after it.
#[derive(Clone, Copy, Drop)]
pub(super) struct Stop {
    pub(super) before: &'static [Step],
    /// The steps of which the last is stopped.
    pub(super) during: &'static [Step],
    /// What a fresh station answers if the stopped request wasn't made.
    pub(super) anew: &'static [Step],
    /// What it answers if it was made.
    pub(super) made: &'static [Step],
    pub(super) after: &'static [Step],
}

/// What a station over the files is asked.
#[derive(Clone, Copy, Drop)]
pub(super) enum Asked<'a> {
    /// Steps, and what comes after them if the store refuses one.
    Steps(&'a [Step]),
    /// Whether the stopped request was made.
    Again(&'a Stop),
}

/// How a step was answered.
#[derive(Clone, Copy, PartialEq, Eq)]
enum Heard {
    Wanted,
    StoreRefused,
    Other,
}

/// The connection over the disks, or what is left of them. It keeps so many pages in memory, and reads others from a disk. Each
/// commit is copied from the log into the database before the next.
fn connected<D: Disk + Drop>(
    alloc: Global,
    disks: Files<D>,
    cache_pages: usize,
) -> Result<Connection<FileStore<D>>, Files<D>> {
    if !disks.may_be_used() {
        return Err(disks);
    }
    let options = Options {
        cache_pages,
        checkpoint_frames: 1,
        ..Options::new(1)
    };
    match Connection::open_files(alloc, disks, options) {
        Ok(conn) => Ok(conn),
        Err((_, left)) => Err(left.into_files()),
    }
}

/// How a step is answered.
fn hear<W: Window, D: Alter>(
    alloc: Global,
    station: &mut Station<W, D>,
    step: &Step,
) -> Result<Heard, Fail> {
    let mut text = String::new(alloc);
    take(station, step, &mut text)?;
    told(text.as_str(), step)
}

fn told(text: &str, step: &Step) -> Result<Heard, Fail> {
    if is_told(text, step)? {
        Ok(Heard::Wanted)
    } else if is_response(text, STORE_REFUSED)? {
        Ok(Heard::StoreRefused)
    } else {
        Ok(Heard::Other)
    }
}

/// How the first step is answered that isn't answered as is wanted, if there is one.
fn hear_all<W: Window, D: Alter>(
    alloc: Global,
    station: &mut Station<W, D>,
    steps: &[Step],
) -> Result<Heard, Fail> {
    for step in steps {
        let heard = hear(alloc, station, step)?;
        if heard != Heard::Wanted {
            return Ok(heard);
        }
    }
    Ok(Heard::Wanted)
}

/// Fails unless each step is answered as is wanted.
fn hear_wanted<W: Window, D: Alter>(
    alloc: Global,
    station: &mut Station<W, D>,
    steps: &[Step],
) -> Result<(), Fail> {
    match hear_all(alloc, station, steps)? {
        Heard::Wanted => Ok(()),
        Heard::StoreRefused | Heard::Other => Err("another answer after the stop".into()),
    }
}

/// The steps, and if one is refused by the store, what comes after it. Whether all were answered.
fn are_answered<W: Window, D: Alter>(
    alloc: Global,
    station: &mut Station<W, D>,
    steps: &[Step],
) -> Result<bool, Fail> {
    match hear_all(alloc, station, steps)? {
        Heard::Wanted => Ok(true),
        Heard::StoreRefused => {
            is_fault(station.notice(), Some(StoreFault::Disk))?;
            hear_wanted(alloc, station, &CLOSED)?;
            is_fault(station.notice(), Some(StoreFault::Closed))?;
            hear_wanted(alloc, station, &WEIGHED)?;
            hear_wanted(alloc, station, &INDICATED)?;
            is_fault(station.notice(), None)?;
            Ok(false)
        }
        Heard::Other => Err("another answer".into()),
    }
}

/// Fails unless the store refused the last request for this reason, or not at all.
fn is_fault(found: Option<&Notice>, wanted: Option<StoreFault>) -> Result<(), Fail> {
    match found {
        Some(Notice::Answered { fault, .. }) if *fault == wanted => Ok(()),
        _ => Err("another fault of the store".into()),
    }
}

/// Whether the stopped request was made, as a fresh station answers.
fn is_made<W: Window, D: Alter>(
    alloc: Global,
    station: &mut Station<W, D>,
    stop: &Stop,
) -> Result<bool, Fail> {
    let made = !starts(alloc, station, stop.anew)?;
    let steps = if made { stop.made } else { stop.anew };
    hear_wanted(alloc, station, steps)?;
    hear_wanted(alloc, station, stop.after)?;
    Ok(made)
}

/// Whether the first of these steps is answered so.
fn starts<W: Window, D: Alter>(
    alloc: Global,
    station: &mut Station<W, D>,
    steps: &[Step],
) -> Result<bool, Fail> {
    match steps.first() {
        Some(step) => Ok(hear(alloc, station, step)? == Heard::Wanted),
        None => Ok(false),
    }
}

/// What a station says of what it is asked.
fn said<W: Window, D: Alter>(
    alloc: Global,
    station: &mut Station<W, D>,
    asked: Asked<'_>,
) -> Result<bool, Fail> {
    match asked {
        Asked::Steps(steps) => are_answered(alloc, station, steps),
        Asked::Again(stop) => is_made(alloc, station, stop),
    }
}

fn over_station<D: Alter + Drop>(
    alloc: Global,
    station: Station<RingWindow, D>,
    asked: Asked<'_>,
) -> Result<(Connection<D>, Option<bool>), Fail> {
    let mut station = station;
    let found = said(alloc, &mut station, asked)?;
    Ok((station.into_store().into_connection(), Some(found)))
}

/// A station over a connection is asked: the connection again, and what was said; none where the store isn't opened.
fn asked_over<D: Alter + Drop>(
    alloc: Global,
    conn: Connection<D>,
    asked: Asked<'_>,
) -> Result<(Connection<D>, Option<bool>), Fail> {
    if !conn.is_autocommit() {
        return Err("in a transaction".into());
    }
    match Store::open(conn) {
        Ok(store) => over_station(alloc, station(alloc, 1_000, store)?, asked),
        Err((_, conn)) => Ok((conn, None)),
    }
}

/// A station on these disks is asked: the disks as they were left, and what was said.
///
/// All others call this, and it alone what is generic over the disks: each such call is dear to prove, however little is done there.
pub(super) fn asked_on(
    alloc: Global,
    disks: Fused,
    cache_pages: usize,
    asked: Asked<'_>,
) -> Result<(Fused, Option<bool>), Fail> {
    asked_on_any(alloc, disks, cache_pages, asked)
}

fn asked_on_any<D: Disk + Drop>(
    alloc: Global,
    disks: Files<D>,
    cache_pages: usize,
    asked: Asked<'_>,
) -> Result<(Files<D>, Option<bool>), Fail> {
    match connected(alloc, disks, cache_pages) {
        Ok(conn) => {
            let (conn, found) = asked_over(alloc, conn, asked)?;
            Ok((conn.into_store().close(), found))
        }
        Err(left) => Ok((left, None)),
    }
}
