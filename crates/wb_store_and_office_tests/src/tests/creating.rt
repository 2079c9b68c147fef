//! A store that is made with lists in it.
use super::calls::Call::{self, Counts, Finds};
use super::calls::{Count, Look, Wanted, answered};
use super::steps::{Step, connected, disks, walked_on};
use super::{Row, entry};
use sqlite::{Alter, Connection, Files};
use sqlite_disk::Disk;
use std::alloc::Global;
use std::test::Fail;
use wb_journal::{Entry, Key, Kind};
use wb_store::{Store, StoreFault};

const ROWS: [Row; 4] = [
    Row(3, "K3", Kind::First, "AB-12"),
    Row(4, "K4", Kind::First, "CD-34"),
    Row(7, "K7", Kind::Second, "AB-12"),
    Row(9, "K9", Kind::First, "AB-12"),
];

/// What a store with these rows answers.
const MADE: &[Call] = &[
    Counts(Count::Entries, Ok(4)),
    Counts(Count::Open, Ok(2)),
    Counts(Count::Next, Ok(10)),
    Counts(Count::Spent(&["K1"]), Ok(1)),
    Finds(Look::Newest, Wanted::Number(9)),
    Finds(Look::Partner(7), Wanted::Number(3)),
];

/// The connection to a database in which a store is made with these lists, and how many calls it answers as wanted, or the fault. None where
/// it wasn't tried.
fn made<D: Alter>(
    alloc: Global,
    conn: Connection<D>,
    entries: &[Entry],
    spent: &[(Key, u32)],
) -> (Connection<D>, Option<Result<usize, StoreFault>>) {
    if !conn.is_autocommit() {
        return (conn, None);
    }
    match Store::create(conn, entries, spent) {
        Ok(mut store) => {
            let count = answered(alloc, &mut store, MADE);
            (store.into_connection(), Some(Ok(count)))
        }
        Err((fault, conn)) => (conn, Some(Err(fault))),
    }
}

/// Whether a store is made in an empty database, isn't made in it a second time, and answers the same when it is opened.
fn is_made_once<D: Disk + Drop>(
    alloc: Global,
    disks: Files<D>,
    entries: &[Entry],
    spent: &[(Key, u32)],
) -> bool {
    let Ok(conn) = connected(alloc, disks, 1) else {
        return false;
    };
    let (conn, first) = made(alloc, conn, entries, spent);
    let (conn, second) = made(alloc, conn, entries, spent);
    let (_disks, done) = walked_on(alloc, conn, &[Step::Open(MADE)]);
    first == Some(Ok(MADE.len()))
        && second == Some(Err(StoreFault::NotEmpty))
        && done == MADE.len().saturating_add(2)
}

#[test]
fn makes_a_store_with_lists_in_it(rt: HostRuntime) -> Result<(), Fail> {
    let entries = entries(rt.alloc())?;
    let spent = [(Key::new("K1").ok_or("key")?, 1)];
    let disks = disks(rt.alloc(), u64::MAX, u64::MAX);
    assert!(rt; is_made_once(rt.alloc(), disks, entries.as_slice(), &spent));
    Ok(())
}

fn entries(alloc: Global) -> Result<Vec<Entry>, Fail> {
    let mut entries: Vec<Entry> = Vec::new(alloc);
    for row in ROWS {
        entries.push(entry(&row).ok_or("row")?)?;
    }
    Ok(entries)
}
