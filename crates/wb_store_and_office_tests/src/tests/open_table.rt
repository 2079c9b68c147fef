//! The table of open weighings beside the journal.
use super::Row;
use super::calls::Call::{Appends, Counts};
use super::calls::Count;
use super::steps::{Step, walk};
use wb_journal::Kind;
use wb_store::StoreFault;

/// An entry, and the table after it.
const ENTRIES: &[Step<'static>] = &[
    Step::Open(&[Appends(Row(1, "K1", Kind::First, "AB-12"), Ok(()))]),
    Step::HasOpen([1, 0, 1]),
    Step::Open(&[Appends(Row(2, "K2", Kind::First, "CD-34"), Ok(()))]),
    Step::HasOpen([1, 2, 2]),
    Step::Open(&[Appends(Row(3, "K3", Kind::Second, "AB-12"), Ok(()))]),
    Step::HasOpen([0, 2, 1]),
    Step::Open(&[Appends(Row(4, "K4", Kind::Void, "CD-34"), Ok(()))]),
    Step::HasOpen([0, 0, 0]),
    Step::Open(&[Appends(Row(5, "K5", Kind::First, "AB-12"), Ok(()))]),
    Step::HasOpen([5, 0, 1]),
    Step::Open(&[Appends(Row(6, "K6", Kind::First, "AB-12"), Ok(()))]),
    Step::HasOpen([6, 0, 1]),
    Step::Open(&[Appends(Row(7, "K7", Kind::Single, "AB-12"), Ok(()))]),
    Step::HasOpen([6, 0, 1]),
    Step::Open(&[Appends(Row(8, "K8", Kind::Second, "AB-12"), Ok(()))]),
    Step::HasOpen([0, 0, 0]),
];

#[test]
fn has_a_row_for_each_open_weighing(rt: HostRuntime) {
    walk(&rt, rt.alloc(), "entries", ENTRIES);
}

/// Two plates weigh, and one of them a second time.
const THREE: Step<'static> = Step::Open(&[
    Appends(Row(1, "K1", Kind::First, "AB-12"), Ok(())),
    Appends(Row(2, "K2", Kind::First, "CD-34"), Ok(())),
    Appends(Row(3, "K3", Kind::Second, "AB-12"), Ok(())),
]);

const PURGES: [(&str, &[Step<'static>]); 2] = [
    (
        "below 2",
        &[
            THREE,
            Step::Open(&[Counts(Count::Purged(2), Ok(1))]),
            Step::HasOpen([0, 2, 1]),
        ],
    ),
    (
        "below 3",
        &[
            THREE,
            Step::Open(&[Counts(Count::Purged(3), Ok(2))]),
            Step::HasOpen([0, 0, 0]),
        ],
    ),
];

#[test]
fn loses_the_rows_below_a_purge(rt: HostRuntime) {
    for (title, steps) in PURGES {
        walk(&rt, rt.alloc(), title, steps);
    }
}

/// What is done to the tables of a store, and the table of open weighings after the next opening.
const CHANGES: [(&str, [i64; 3]); 8] = [
    ("", [0, 2, 1]),
    ("DROP TABLE open_weighing", [0, 2, 1]),
    ("DELETE FROM open_weighing", [0, 2, 1]),
    ("UPDATE open_weighing SET number = 1", [0, 2, 1]),
    ("INSERT INTO open_weighing VALUES ('EF-56', 9)", [0, 2, 1]),
    (
        "CREATE INDEX journal_by_plate ON journal (plate, kind)",
        [0, 2, 1],
    ),
    (
        "DROP TABLE open_weighing; CREATE INDEX journal_by_plate ON journal (plate, kind)",
        [0, 2, 1],
    ),
    ("DELETE FROM journal WHERE number = 3", [1, 2, 2]),
];

#[test]
fn is_brought_into_line_at_an_opening(rt: HostRuntime) {
    for (change, wanted) in CHANGES {
        let steps = [
            THREE,
            Step::Run(change),
            Step::Open(&[]),
            Step::HasOpen(wanted),
        ];
        walk(&rt, rt.alloc(), change, &steps);
    }
}

/// The second row was put beside the first, which went. It keeps its key where the table agrees with the journal, and has another once the
/// table was written anew.
const KEYS: &[Step<'static>] = &[
    THREE,
    Step::Open(&[]),
    Step::Shows("SELECT rowid FROM open_weighing", 2),
    Step::Run("UPDATE open_weighing SET number = 1"),
    Step::Open(&[]),
    Step::Shows("SELECT rowid FROM open_weighing", 1),
];

#[test]
fn is_written_anew_only_where_it_differs(rt: HostRuntime) {
    walk(&rt, rt.alloc(), "keys of rows", KEYS);
}

/// Other forms of the table.
const FORMS: [&str; 4] = [
    "CREATE TABLE open_weighing (plate TEXT NOT NULL PRIMARY KEY) STRICT",
    "CREATE TABLE open_weighing (name TEXT NOT NULL PRIMARY KEY, number INTEGER NOT NULL) STRICT",
    "CREATE VIEW open_weighing AS SELECT plate, number FROM journal",
    "CREATE VIEW open_weighing AS SELECT 1",
];

#[test]
fn takes_another_form_of_the_table_as_a_fault_of_the_disk(rt: HostRuntime) {
    for form in FORMS {
        let steps = [
            Step::Open(&[]),
            Step::Run("DROP TABLE open_weighing"),
            Step::Run(form),
            Step::Refused(StoreFault::Disk),
        ];
        walk(&rt, rt.alloc(), form, &steps);
    }
}
