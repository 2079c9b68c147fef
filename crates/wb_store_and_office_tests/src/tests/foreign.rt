//! Tables of other hands.
use super::calls::Call::Counts;
use super::calls::Count;
use super::steps::{Step, walk};
use wb_store::StoreFault;

/// An entry that a store takes.
const ENTRY: &str =
    "INSERT INTO journal VALUES (5, 'K5', 1, 'AB-12', 1741593600, 18340, NULL, 20, 60000, 'WB01', '', '')";

/// What is done to the tables of a store with that entry, so that it isn't opened again, and then a count of rows.
const FOREIGN: [(&str, &str, i64); 26] = [
    ("DROP TABLE spent", "SELECT count(*) FROM about", 1),
    (
        "DROP TABLE about; DROP TABLE journal; DROP TABLE spent",
        "SELECT count(*) FROM open_weighing",
        0,
    ),
    (
        "DROP TABLE spent; CREATE VIEW spent AS SELECT request_key, number FROM journal WHERE number < 5",
        "SELECT count(*) FROM about",
        1,
    ),
    (
        "DROP TABLE about; CREATE VIEW about AS SELECT 'version' AS name, 2 AS value",
        "SELECT count(*) FROM journal",
        1,
    ),
    (
        "DROP TABLE about; CREATE VIEW about AS SELECT 'version' AS name, 1 AS value",
        "SELECT count(*) FROM journal",
        1,
    ),
    (
        "DROP TABLE spent; CREATE TABLE spent (number INTEGER)",
        "SELECT count(*) FROM about",
        1,
    ),
    (
        "DROP TABLE about; CREATE TABLE about (value INTEGER)",
        "SELECT count(*) FROM journal",
        1,
    ),
    (
        "DROP TABLE journal; CREATE TABLE journal (request_key TEXT)",
        "SELECT count(*) FROM about",
        1,
    ),
    (
        "DROP TABLE spent; CREATE TABLE spent (request_key TEXT)",
        "SELECT count(*) FROM about",
        1,
    ),
    (
        "UPDATE about SET value = 3",
        "SELECT count(*) FROM about WHERE value = 3",
        1,
    ),
    (
        "INSERT INTO about VALUES ('other', 1)",
        "SELECT count(*) FROM about",
        2,
    ),
    ("DELETE FROM about", "SELECT count(*) FROM about", 0),
    (
        "INSERT INTO spent VALUES ('K5', 4)",
        "SELECT count(*) FROM spent",
        1,
    ),
    (
        "INSERT INTO spent VALUES ('K1', 6)",
        "SELECT count(*) FROM spent",
        1,
    ),
    (
        "INSERT INTO spent VALUES ('K1', 5)",
        "SELECT count(*) FROM spent",
        1,
    ),
    (
        "INSERT INTO spent VALUES ('K1', 0)",
        "SELECT count(*) FROM spent",
        1,
    ),
    (
        "UPDATE journal SET kind = 4",
        "SELECT count(*) FROM journal WHERE kind = 4",
        1,
    ),
    (
        "UPDATE journal SET kind = 5",
        "SELECT count(*) FROM journal WHERE kind = 5",
        1,
    ),
    (
        "UPDATE journal SET interval_kg = 3",
        "SELECT count(*) FROM journal",
        1,
    ),
    (
        "UPDATE journal SET request_key = 'K 5'",
        "SELECT count(*) FROM journal",
        1,
    ),
    (
        "UPDATE journal SET moment = 253402207201",
        "SELECT count(*) FROM journal",
        1,
    ),
    (
        "UPDATE journal SET moment = -1",
        "SELECT count(*) FROM journal",
        1,
    ),
    (
        "UPDATE journal SET digest = '0123456789012345678901234567890123456789012345678901234567890123a'",
        "SELECT count(*) FROM journal WHERE length(digest) = 65",
        1,
    ),
    (
        "UPDATE journal SET previous = '0123456789012345678901234567890123456789012345678901234567890123a'",
        "SELECT count(*) FROM journal WHERE length(previous) = 65",
        1,
    ),
    (
        "UPDATE journal SET number = 0",
        "SELECT count(*) FROM journal WHERE number = 0",
        1,
    ),
    (
        "UPDATE journal SET number = 4294967296",
        "SELECT count(*) FROM journal WHERE number = 4294967296",
        1,
    ),
];

#[test]
fn refuses_what_is_foreign_and_hands_the_connection_back(rt: HostRuntime) {
    for (change, query, count) in FOREIGN {
        let steps = [
            Step::Open(&[]),
            Step::Run(ENTRY),
            Step::Run(change),
            Step::Refused(StoreFault::Foreign),
            Step::Shows(query, count),
        ];
        walk(&rt, rt.alloc(), change, &steps);
    }
}

/// What is done to the tables of a store with that entry, so that it is still opened.
const TAKEN: [&str; 11] = [
    "",
    "UPDATE journal SET digest = 'zz'",
    "UPDATE journal SET digest = '0123456789012345678901234567890123456789012345678901234567890123'",
    "UPDATE journal SET previous = 'zz'",
    "UPDATE journal SET previous = '0123456789012345678901234567890123456789012345678901234567890123'",
    "CREATE TABLE other (name TEXT); INSERT INTO other VALUES ('K5')",
    "INSERT INTO spent VALUES ('K1', 4)",
    "UPDATE journal SET kind = 4, gross_kg = NULL",
    "UPDATE journal SET moment = 253402207200",
    "UPDATE journal SET number = 1",
    "UPDATE journal SET number = 4294967295",
];

#[test]
fn takes_what_stands_at_the_limits(rt: HostRuntime) {
    for change in TAKEN {
        let steps = [
            Step::Open(&[]),
            Step::Run(ENTRY),
            Step::Run(change),
            Step::Open(&[Counts(Count::Entries, Ok(1))]),
        ];
        walk(&rt, rt.alloc(), change, &steps);
    }
}

/// The tables of version 1, with an entry.
const VERSION_1: &str =
    "CREATE TABLE about (name TEXT NOT NULL PRIMARY KEY, value INTEGER NOT NULL) STRICT;
CREATE TABLE journal (number INTEGER PRIMARY KEY, request_key TEXT NOT NULL UNIQUE, kind INTEGER NOT NULL, plate TEXT NOT NULL, moment INTEGER NOT NULL, gross_kg INTEGER, preset_kg INTEGER, interval_kg INTEGER NOT NULL, max_kg INTEGER NOT NULL, serial TEXT NOT NULL, digest TEXT NOT NULL) STRICT;
CREATE TABLE spent (request_key TEXT NOT NULL PRIMARY KEY, number INTEGER NOT NULL UNIQUE) STRICT;
INSERT INTO about VALUES ('version', 1);
INSERT INTO journal VALUES (5, 'K5', 1, 'AB-12', 1741593600, 18340, NULL, 20, 60000, 'WB01', '')";

#[test]
fn refuses_tables_of_version_1_and_leaves_them(rt: HostRuntime) {
    let steps = [
        Step::Run(VERSION_1),
        Step::Refused(StoreFault::OldVersion),
        Step::Shows("SELECT count(*) FROM journal WHERE number = 5", 1),
        Step::Shows(
            "SELECT count(*) FROM sqlite_schema WHERE name = 'open_weighing'",
            0,
        ),
        Step::Shows("SELECT value FROM about", 1),
    ];
    walk(&rt, rt.alloc(), "tables of version 1", &steps);
}

/// What is done to the tables of a store with that entry, so that they say version 1.
const OLD: [&str; 2] = [
    "UPDATE about SET value = 1",
    "UPDATE about SET value = 1; UPDATE journal SET kind = 5",
];

#[test]
fn refuses_what_says_version_1_whatever_else_it_holds(rt: HostRuntime) {
    for change in OLD {
        let steps = [
            Step::Open(&[]),
            Step::Run(ENTRY),
            Step::Run(change),
            Step::Refused(StoreFault::OldVersion),
            Step::Shows("SELECT value FROM about", 1),
            Step::Shows("SELECT count(*) FROM journal", 1),
        ];
        walk(&rt, rt.alloc(), change, &steps);
    }
}

/// What has the name of a table in a database without the four.
const NAMED: [&str; 3] = [
    "CREATE VIEW about AS SELECT 'version' AS name, 2 AS value",
    "CREATE VIEW journal AS SELECT 1",
    "CREATE TABLE other (name TEXT); CREATE INDEX spent ON other (name)",
];

#[test]
fn makes_no_table_where_a_view_or_an_index_has_its_name(rt: HostRuntime) {
    for change in NAMED {
        let steps = [
            Step::Open(&[]),
            Step::Run(
                "DROP TABLE about; DROP TABLE journal; DROP TABLE spent; DROP TABLE open_weighing",
            ),
            Step::Run(change),
            Step::Refused(StoreFault::Disk),
            Step::Shows(
                "SELECT count(*) FROM sqlite_schema WHERE name IN ('about', 'journal', 'spent', 'open_weighing')",
                1,
            ),
        ];
        walk(&rt, rt.alloc(), change, &steps);
    }
}
