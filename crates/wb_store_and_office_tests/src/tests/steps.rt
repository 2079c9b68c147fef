//! Steps over a database in memory, run one after the other.
ghost use Rattle.sqlite.specs.Held.{state};
ghost use Rattle.std.specs.Prelude.{◌≡◌, false};

use super::calls::{Call, answered};
use sqlite::{Alter, Connection, FileStore, Files, Options};
use sqlite_disk::{Disk, Fuse, Memory};
use std::alloc::Global;
use std::process::Abort;
use wb_store::{Store, StoreFault};

/// A step.
#[derive(Clone, Copy, Drop)]
pub(super) enum Step<'a> {
    /// Statements are run on the tables, while no store is open.
    Run(&'a str),
    /// A query shows one number.
    Shows(&'a str, i64),
    /// The table of open weighings has these numbers for two plates, 0 where it has none, and so many rows.
    HasOpen([i64; 3]),
    /// A store is opened, answers these calls, and is closed.
    Open(&'a [Call]),
    /// A store is opened, and answers all of the one, which counts as one thing, or all of the other, which counts as two.
    Either(&'a [Call], &'a [Call]),
    /// The opening of a store is refused.
    Refused(StoreFault),
}

/// The disks of a database.
pub(super) type Disks = Files<Fuse<Memory>>;

/// New disks in memory. That of the log fails each call after so many, and that of the database each after so many.
pub(super) fn disks(alloc: Global, log: u64, db: u64) -> Disks {
    Files {
        log: Fuse::new(Memory::new(alloc), log),
        db: Fuse::new(Memory::new(alloc), db),
    }
}

/// New disks, of which that of the log or that of the database fails each call after so many.
pub(super) fn one_stopped(alloc: Global, of_log: bool, calls: u64) -> Disks {
    if of_log {
        disks(alloc, calls, u64::MAX)
    } else {
        disks(alloc, u64::MAX, calls)
    }
}

/// A connection to disks, or the disks where it isn't had. A log of so many pages is copied into the database.
pub(super) fn connected<D: Disk + Drop>(
    alloc: Global,
    disks: Files<D>,
    checkpoint_frames: usize,
) -> Result<Connection<FileStore<D>>, Files<D>> {
    if !disks.may_be_used() {
        return Err(disks);
    }
    let options = Options {
        checkpoint_frames,
        cache_pages: 32,
        ..Options::new(1)
    };
    match Connection::open_files(alloc, disks, options) {
        Ok(conn) => Ok(conn),
        Err((_, left)) => Err(left.into_files()),
    }
}

/// The disks of a connection, which is closed.
pub(super) fn closed<D: Disk + Drop>(conn: Connection<FileStore<D>>) -> Files<D> {
    conn.into_store().close()
}

/// Runs the steps on the disks up to the first that isn't as wanted. Answers the disks and how many things were as wanted: the
/// connection, and then each step and each call of a store. A log of so many pages is copied into the database.
///
/// All others call this, and it alone what is generic over the disks: each such call is dear to prove.
pub(super) fn run(
    alloc: Global,
    disks: Disks,
    checkpoint_frames: usize,
    steps: &[Step<'_>],
) -> (Disks, usize) {
    run_over(alloc, disks, checkpoint_frames, steps)
}

fn run_over<D: Disk + Drop>(
    alloc: Global,
    disks: Files<D>,
    checkpoint_frames: usize,
    steps: &[Step<'_>],
) -> (Files<D>, usize) {
    match connected(alloc, disks, checkpoint_frames) {
        Ok(conn) => walked_on(alloc, conn, steps),
        Err(left) => (left, 0),
    }
}

/// The disks of a connection after the steps, and how many things were as wanted, the connection among them.
pub(super) fn walked_on<D: Disk + Drop>(
    alloc: Global,
    conn: Connection<FileStore<D>>,
    steps: &[Step<'_>],
) -> (Files<D>, usize) {
    let (conn, done) = walked(alloc, conn, steps);
    (closed(conn), done.saturating_add(1))
}

/// Asserts that all the steps are as wanted, from an empty database.
pub(super) fn walk(rt: &impl Abort, alloc: Global, title: &str, steps: &[Step<'_>]) {
    let (_, done) = run(alloc, disks(alloc, u64::MAX, u64::MAX), 1_000, steps);
    assert_eq!(rt; done, length(steps).saturating_add(1), "{title}");
}

/// The connection after the steps, and how many things were as wanted.
fn walked<D: Alter>(
    alloc: Global,
    conn: Connection<D>,
    steps: &[Step<'_>],
) -> (Connection<D>, usize) {
    let mut conn = conn;
    let mut done = 0usize;
    for step in steps {
        let (left, count) = stepped(alloc, conn, step);
        conn = left;
        done = done.saturating_add(count);
        if count < length_of(step) {
            break;
        }
    }
    (conn, done)
}

fn length_of(step: &Step<'_>) -> usize {
    match step {
        Step::Open(calls) => calls.len().saturating_add(1),
        _ => 1,
    }
}

/// How many things are as wanted if all of the steps are.
fn length(steps: &[Step<'_>]) -> usize {
    let mut length = 0usize;
    for step in steps {
        length = length.saturating_add(length_of(step));
    }
    length
}

/// The connection after a step, and how many things were as wanted.
fn stepped<D: Alter>(
    alloc: Global,
    conn: Connection<D>,
    step: &Step<'_>,
) -> (Connection<D>, usize) {
    let mut conn = conn;
    match step {
        Step::Run(statements) => {
            let is_run = conn.execute_batch(statements).is_ok();
            (conn, is_run as usize)
        }
        Step::Shows(query, wanted) => {
            let is_shown = number(&mut conn, query) == Some(*wanted);
            (conn, is_shown as usize)
        }
        Step::HasOpen(wanted) => {
            let is_shown = open_weighings(&mut conn) == Some(*wanted);
            (conn, is_shown as usize)
        }
        Step::Open(_) | Step::Either(..) | Step::Refused(_) => opened(alloc, conn, step),
    }
}

/// The one number that a query shows.
pub(super) fn number<D: Alter>(conn: &mut Connection<D>, query: &str) -> Option<i64> {
    conn.query_row(query, &[]).ok()?.get(0).ok()
}

/// The numbers that the table of open weighings has for two plates, 0 where it has none, and how many rows it has.
fn open_weighings<D: Alter>(conn: &mut Connection<D>) -> Option<[i64; 3]> {
    let [one, other, rows] = [
        "SELECT coalesce(max(number), 0) FROM open_weighing WHERE plate = 'AB-12'",
        "SELECT coalesce(max(number), 0) FROM open_weighing WHERE plate = 'CD-34'",
        "SELECT count(*) FROM open_weighing",
    ];
    Some([
        number(conn, one)?,
        number(conn, other)?,
        number(conn, rows)?,
    ])
}

/// The connection after a step that opens a store.
fn opened<D: Alter>(alloc: Global, conn: Connection<D>, step: &Step<'_>) -> (Connection<D>, usize) {
    if !conn.is_autocommit() {
        return (conn, 0);
    }
    match Store::open(conn) {
        Ok(mut store) => {
            let count = asked(alloc, &mut store, step);
            (store.into_connection(), count)
        }
        Err((fault, conn)) => match step {
            Step::Refused(wanted) => (conn, (fault == *wanted) as usize),
            _ => (conn, 0),
        },
    }
}

/// How many things are as wanted of a store that was opened.
fn asked<D: Alter>(alloc: Global, store: &mut Store<D>, step: &Step<'_>) -> usize {
    match step {
        Step::Open(calls) => answered(alloc, store, calls).saturating_add(1),
        Step::Either(one, other) => {
            if answered(alloc, store, one) == one.len() {
                1
            } else if answered(alloc, store, other) == other.len() {
                2
            } else {
                0
            }
        }
        _ => 0,
    }
}
