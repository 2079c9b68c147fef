//! Databases of version 1 that are migrated into empty ones, or refused; and stops of the disks of either.
use super::calls::Call::{self, Appends, Counts, Finds};
use super::calls::{Count, Look, Wanted, answered};
use super::steps::{Disks, Step, closed, connected, disks, one_stopped, run};
use super::stops::leaves_the_one;
use super::{FIRST, Row, SECOND};
use sqlite::{Alter, Connection, Files};
use sqlite_disk::Disk;
use std::alloc::Global;
use std::test::Fail;
use wb_journal::Kind;
use wb_store::{MigrateRefused, Store, StoreFault};

/// The three tables of version 1.
const TABLES: &str =
    "CREATE TABLE about (name TEXT NOT NULL PRIMARY KEY, value INTEGER NOT NULL) STRICT;
CREATE TABLE journal (number INTEGER PRIMARY KEY, request_key TEXT NOT NULL UNIQUE, kind INTEGER NOT NULL, plate TEXT NOT NULL, moment INTEGER NOT NULL, gross_kg INTEGER, preset_kg INTEGER, interval_kg INTEGER NOT NULL, max_kg INTEGER NOT NULL, serial TEXT NOT NULL, digest TEXT NOT NULL) STRICT;
CREATE TABLE spent (request_key TEXT NOT NULL PRIMARY KEY, number INTEGER NOT NULL UNIQUE) STRICT;
INSERT INTO about VALUES ('version', 1)";

/// The worked day, with the digests of its texts of version 1.
const DAY: &str =
    "INSERT INTO journal VALUES (1, 'K1', 1, 'AB-12', 1741593600, 18340, NULL, 20, 60000, 'WB01', '1ff0f144d39a8d0890cc2c886fab380c93a9dd98d1d16ca37031b262a56fd3b3');
INSERT INTO journal VALUES (2, 'K2', 2, 'AB-12', 1741599000, 8140, NULL, 20, 60000, 'WB01', '0cc09cd58f03a59c03e87a55f97d3a8262963dcfe6244de45c39d2f4c9e62d56')";

/// The same two entries as numbers 301 and 302, after a purge.
const PURGED: &str = "INSERT INTO spent VALUES ('K0', 300);
INSERT INTO journal VALUES (301, 'K1', 1, 'AB-12', 1741593600, 18340, NULL, 20, 60000, 'WB01', '1baf2529c10ec7d5372605d10546f80874a481efe63fd2b01e206ae0e52de621');
INSERT INTO journal VALUES (302, 'K2', 2, 'AB-12', 1741599000, 8140, NULL, 20, 60000, 'WB01', '938627be529c36370ee1a2e5980d39fa10532d12c7ec916de55509418b045c1e')";

/// Both entries stand, each with the digest of its text of version 2.
const BOTH: &[Call] = &[
    Counts(Count::Entries, Ok(2)),
    Counts(Count::Open, Ok(0)),
    Counts(Count::Next, Ok(3)),
    Finds(Look::Number(1), Wanted::Entry(FIRST)),
    Finds(Look::Key("K2"), Wanted::Entry(SECOND)),
    Finds(
        Look::Number(2),
        Wanted::Weighed(
            8_140,
            "b3b5f9b7b253a32759e7f7696c8248ad2d85333673358587ad599ef71b8e7d3e",
        ),
    ),
    Finds(Look::Partner(2), Wanted::Number(1)),
    Appends(Row(3, "K3", Kind::First, "AB-12"), Ok(())),
];

/// So do those after a purge, and its key stays spent.
const BOTH_AFTER: &[Call] = &[
    Counts(Count::Entries, Ok(2)),
    Counts(Count::Next, Ok(303)),
    Counts(Count::Spent(&["K0"]), Ok(1)),
    Finds(
        Look::Number(301),
        Wanted::Weighed(
            18_340,
            "34042789d494f5b45dbea278f749ffcc4edb5e83a8e4d8305c5b451ff1aebce1",
        ),
    ),
    Finds(
        Look::Number(302),
        Wanted::Weighed(
            8_140,
            "0798adc6be000413b9895637c70cc536964ec76c19281bed9d5ee75a5e7d4266",
        ),
    ),
];

/// An empty store.
const NOTHING: &[Call] = &[
    Counts(Count::Entries, Ok(0)),
    Counts(Count::Next, Ok(1)),
    Finds(Look::Newest, Wanted::Nothing),
];

/// What is run on the old database, what on the new one, and what is wanted: what the store answers, or the fault.
type Case = (
    &'static [&'static str],
    &'static [&'static str],
    Result<&'static [Call], StoreFault>,
);

const CASES: [Case; 20] = [
    (&[TABLES, DAY], &[], Ok(BOTH)),
    (
        &[
            TABLES,
            DAY,
            "CREATE TABLE open_weighing (plate TEXT NOT NULL PRIMARY KEY, number INTEGER NOT NULL UNIQUE) STRICT",
        ],
        &[],
        Ok(BOTH),
    ),
    (
        &[TABLES, DAY],
        &["CREATE TABLE other (name TEXT)"],
        Ok(BOTH),
    ),
    (
        &[
            TABLES,
            DAY,
            "CREATE TABLE note (number INTEGER REFERENCES journal (number)) STRICT",
        ],
        &[],
        Ok(BOTH),
    ),
    (&[TABLES, PURGED], &[], Ok(BOTH_AFTER)),
    (&[TABLES], &[], Ok(NOTHING)),
    (&[], &[], Err(StoreFault::NotVersion1)),
    (
        &[TABLES, DAY, "UPDATE about SET value = 2"],
        &[],
        Err(StoreFault::NotVersion1),
    ),
    (
        &[TABLES, DAY, "DROP TABLE spent"],
        &[],
        Err(StoreFault::Foreign),
    ),
    (
        &[TABLES, DAY, "DROP TABLE journal"],
        &[TABLES],
        Err(StoreFault::Foreign),
    ),
    (
        &[TABLES, DAY, "DROP TABLE about"],
        &[],
        Err(StoreFault::Foreign),
    ),
    (
        &[
            TABLES,
            DAY,
            "DROP TABLE about",
            "CREATE VIEW about AS SELECT 'version' AS name, 2 AS value",
        ],
        &[],
        Err(StoreFault::Foreign),
    ),
    (
        &[TABLES, DAY, "UPDATE about SET value = 3"],
        &[],
        Err(StoreFault::Foreign),
    ),
    (
        &[TABLES, DAY, "UPDATE journal SET kind = 5 WHERE number = 2"],
        &[TABLES],
        Err(StoreFault::Foreign),
    ),
    (
        &[TABLES, DAY, "INSERT INTO spent VALUES ('K2', 1)"],
        &[],
        Err(StoreFault::Foreign),
    ),
    (
        &[
            TABLES,
            DAY,
            "UPDATE journal SET gross_kg = 18360 WHERE number = 1",
        ],
        &[],
        Err(StoreFault::Damaged(1)),
    ),
    (
        &[TABLES, DAY, "DELETE FROM journal WHERE number = 1"],
        &[TABLES],
        Err(StoreFault::Damaged(2)),
    ),
    (
        &[
            TABLES,
            DAY,
            "UPDATE journal SET number = 3, digest = '03b2b058070583b5c7327ac8c88dbf708351eb1e3a9be247002dc6aca5dbf3a2' WHERE number = 2",
        ],
        &[],
        Err(StoreFault::Gap(2)),
    ),
    (
        &[
            TABLES,
            DAY,
            "UPDATE journal SET number = 3, digest = '03b2b058070583b5c7327ac8c88dbf708351eb1e3a9be247002dc6aca5dbf3a2' WHERE number = 2",
        ],
        &[TABLES],
        Err(StoreFault::Gap(2)),
    ),
    (&[TABLES, DAY], &[TABLES], Err(StoreFault::NotEmpty)),
];

/// Statements that are run on the old database and on the new one, and what the store is asked that their migration gives.
#[derive(Clone, Copy, Drop)]
struct Migration {
    old: &'static [&'static str],
    new: &'static [&'static str],
    calls: &'static [Call],
}

/// How many calls the store answered as wanted that a migration gave, or its fault. None where it wasn't tried.
type Gave = Option<Result<usize, StoreFault>>;

/// The disks of both databases after a migration, and what it gave.
fn migrated_on(
    alloc: Global,
    old: Disks,
    new: Disks,
    migration: &Migration,
) -> (Disks, Disks, Gave) {
    migrated_over(alloc, old, new, migration)
}

fn migrated_over<D: Disk + Drop>(
    alloc: Global,
    old: Files<D>,
    new: Files<D>,
    migration: &Migration,
) -> (Files<D>, Files<D>, Gave) {
    match connected(alloc, old, 1) {
        Ok(old) => match connected(alloc, new, 1) {
            Ok(new) => {
                let (old, new, gave) = migrated(alloc, old, new, migration);
                (closed(old), closed(new), gave)
            }
            Err(new) => (closed(old), new, None),
        },
        Err(old) => (old, new, None),
    }
}

/// The connections to both databases after a migration, and what it gave.
fn migrated<D: Alter>(
    alloc: Global,
    old: Connection<D>,
    new: Connection<D>,
    migration: &Migration,
) -> (Connection<D>, Connection<D>, Gave) {
    let (mut old, mut new) = (old, new);
    let is_ready = are_run(&mut old, migration.old) && are_run(&mut new, migration.new);
    if !new.is_autocommit() || !is_ready {
        return (old, new, None);
    }
    match Store::migrate(old, new) {
        Ok((mut store, old)) => {
            let count = answered(alloc, &mut store, migration.calls);
            (old, store.into_connection(), Some(Ok(count)))
        }
        Err(MigrateRefused { fault, old, new }) => (old, new, Some(Err(fault))),
    }
}

fn are_run<D: Alter>(conn: &mut Connection<D>, statements: &[&str]) -> bool {
    for text in statements {
        if conn.execute_batch(text).is_err() {
            return false;
        }
    }
    true
}

/// Whether a migration gives what is wanted.
fn is_as_wanted(alloc: Global, case: &Case) -> bool {
    let (old, new, wanted) = *case;
    let (calls, wanted): (&'static [Call], _) = match wanted {
        Ok(calls) => (calls, Ok(calls.len())),
        Err(fault) => (&[], Err(fault)),
    };
    let (_old, _new, gave) = migrated_on(
        alloc,
        disks(alloc, u64::MAX, u64::MAX),
        disks(alloc, u64::MAX, u64::MAX),
        &Migration { old, new, calls },
    );
    gave == Some(wanted)
}

#[test]
fn brings_a_journal_over_or_says_why_not(rt: HostRuntime) {
    for (place, case) in CASES.iter().enumerate() {
        assert!(rt; is_as_wanted(rt.alloc(), case), "case {place}");
    }
}

/// Shows that a database of version 1 has its entries, its version and its tables.
const UNTOUCHED: &[Step<'static>] = &[
    Step::Shows("SELECT count(*) FROM journal WHERE length(digest) = 64", 2),
    Step::Shows("SELECT value FROM about", 1),
    Step::Shows("SELECT count(*) FROM sqlite_schema WHERE type = 'table'", 3),
];

fn is_untouched(alloc: Global, old: Disks) -> bool {
    let (_old, done) = run(alloc, old, 1, UNTOUCHED);
    done == UNTOUCHED.len().saturating_add(1)
}

/// Whether a migration into disks was answered, and whether a crash leaves all entries on them, else none. None where it wasn't tried.
fn stopped(alloc: Global, new: Disks) -> Result<Option<(bool, bool)>, Fail> {
    let migration = Migration {
        old: &[TABLES, DAY],
        new: &[],
        calls: &[],
    };
    let old = disks(alloc, u64::MAX, u64::MAX);
    let (old, new, gave) = migrated_on(alloc, old, new, &migration);
    let Some(gave) = gave else {
        return Ok(None);
    };
    if !is_untouched(alloc, old) {
        return Err("the old database".into());
    }
    let has_all = leaves_the_one(alloc, new, 1, BOTH, NOTHING)?;
    Ok(Some((gave.is_ok(), has_all)))
}

/// Over stops at each call of one disk of the new database: a crash leaves what was before or all, and all once it was answered. Answers
/// whether both were met.
fn leaves_all_or_nothing(alloc: Global, of_log: bool) -> Result<[bool; 2], Fail> {
    let mut met = [false; 2];
    for calls in 0..1_000u64 {
        if let Some((is_done, has_all)) = stopped(alloc, one_stopped(alloc, of_log, calls))? {
            *met.get_mut(has_all as usize).ok_or("met")? = true;
            if is_done {
                return if has_all {
                    Ok(met)
                } else {
                    Err("answered and gone".into())
                };
            }
        }
    }
    Err("always stopped".into())
}

#[test]
fn leaves_all_or_nothing_over_stops_of_either_disk(rt: HostRuntime) -> Result<(), Fail> {
    assert_eq!(rt; leaves_all_or_nothing(rt.alloc(), true)?, [true; 2]);
    assert_eq!(rt; leaves_all_or_nothing(rt.alloc(), false)?, [true; 2]);
    Ok(())
}
