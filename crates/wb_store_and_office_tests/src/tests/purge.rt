//! Purges, partners of numbers, and looks at keys and plates.
use super::Row;
use super::calls::Call::{Appends, Counts, Finds, Looks};
use super::calls::{Count, Look, Seen, Wanted};
use super::steps::{Step, walk};
use wb_journal::Kind;
use wb_store::StoreFault;

/// Five entries: the First of two plates, the Seconds of both, and a Single.
const FIVE: Step<'static> = Step::Open(&[
    Appends(Row(1, "K1", Kind::First, "AB-12"), Ok(())),
    Appends(Row(2, "K2", Kind::First, "CD-34"), Ok(())),
    Appends(Row(3, "K3", Kind::Second, "AB-12"), Ok(())),
    Appends(Row(4, "K4", Kind::Single, "CD-34"), Ok(())),
    Appends(Row(5, "K5", Kind::Void, "CD-34"), Ok(())),
]);

/// Their keys.
const KEYS: Count = Count::Spent(&["K1", "K2", "K3", "K4", "K5"]);

/// A bound, how many entries are below it, how many keys are spent then, and how many entries are left.
const BOUNDS: [(&str, u64, u64, u64, u64); 9] = [
    ("below 0", 0, 0, 0, 5),
    ("below 1", 1, 0, 0, 5),
    ("below 2", 2, 1, 1, 4),
    ("below 3", 3, 2, 2, 3),
    ("below 4", 4, 3, 3, 2),
    ("below 5", 5, 4, 4, 1),
    ("below 6", 6, 5, 5, 0),
    ("past the greatest number", 4_294_967_296, 5, 5, 0),
    ("at the greatest bound", u64::MAX, 5, 5, 0),
];

#[test]
fn keeps_what_stands_from_each_bound_on(rt: HostRuntime) {
    for (title, bound, gone, spent, left) in BOUNDS {
        let [purge, keys, entries, next, nothing] = [
            Counts(Count::Purged(bound), Ok(gone)),
            Counts(KEYS, Ok(spent)),
            Counts(Count::Entries, Ok(left)),
            Counts(Count::Next, Ok(6)),
            Counts(Count::Purged(bound), Ok(0)),
        ];
        let steps = [
            FIVE,
            Step::Open(&[purge, keys, entries, next]),
            Step::Open(&[keys, entries, next, nothing]),
        ];
        walk(&rt, rt.alloc(), title, &steps);
    }
}

const AGAIN: &[Step<'static>] = &[
    FIVE,
    Step::Open(&[
        Counts(Count::Purged(3), Ok(2)),
        Appends(Row(6, "K6", Kind::First, "AB-12"), Ok(())),
        Counts(Count::Purged(5), Ok(2)),
    ]),
    Step::Open(&[
        Counts(KEYS, Ok(4)),
        Counts(Count::Entries, Ok(2)),
        Finds(Look::Key("K1"), Wanted::Nothing),
        Counts(Count::Next, Ok(7)),
    ]),
];

#[test]
fn keeps_keys_spent_over_more_entries_and_purges(rt: HostRuntime) {
    walk(&rt, rt.alloc(), "two purges", AGAIN);
}

/// The caller adds an entry with a spent key and so breaks the condition: the purge of it is refused by the table.
const SPENT_AGAIN: &[Step<'static>] = &[
    FIVE,
    Step::Open(&[
        Counts(Count::Purged(2), Ok(1)),
        Appends(Row(6, "K1", Kind::First, "AB-12"), Ok(())),
        Counts(Count::Purged(7), Err(StoreFault::Disk)),
        Counts(Count::Purged(7), Err(StoreFault::Closed)),
    ]),
];

#[test]
fn refuses_a_spent_key_that_is_purged_again(rt: HostRuntime) {
    walk(&rt, rt.alloc(), "a key spent twice", SPENT_AGAIN);
}

/// A Second has the First of its plate, the Void that of the other plate, until these are purged.
const PARTNERS: &[Step<'static>] = &[
    FIVE,
    Step::Open(&[
        Finds(Look::Partner(0), Wanted::Nothing),
        Finds(Look::Partner(1), Wanted::Nothing),
        Finds(Look::Partner(2), Wanted::Nothing),
        Finds(Look::Partner(3), Wanted::Number(1)),
        Finds(Look::Partner(4), Wanted::Nothing),
        Finds(Look::Partner(5), Wanted::Number(2)),
        Finds(Look::Partner(6), Wanted::Nothing),
        Counts(Count::Purged(2), Ok(1)),
        Finds(Look::Partner(3), Wanted::Nothing),
        Finds(Look::Partner(5), Wanted::Number(2)),
    ]),
];

#[test]
fn finds_the_partner_of_each_number(rt: HostRuntime) {
    walk(&rt, rt.alloc(), "partners", PARTNERS);
}

/// A new key over no entry, over open weighings of its plate and of others, and once all are purged; keys that stand, and spent ones.
const LOOKS: &[Step<'static>] = &[
    Step::Open(&[Looks(
        "K1",
        "AB-12",
        Ok(Seen::New {
            newest: 0,
            next: 1,
            open: 0,
            count: 0,
            open_count: 0,
        }),
    )]),
    FIVE,
    Step::Open(&[
        Looks("K1", "CD-34", Ok(Seen::Standing(1, 0))),
        Looks("K3", "AB-12", Ok(Seen::Standing(3, 1))),
        Looks("K5", "AB-12", Ok(Seen::Standing(5, 2))),
        Looks(
            "K6",
            "CD-34",
            Ok(Seen::New {
                newest: 5,
                next: 6,
                open: 0,
                count: 5,
                open_count: 0,
            }),
        ),
        Appends(Row(6, "K6", Kind::First, "AB-12"), Ok(())),
        Looks(
            "K7",
            "AB-12",
            Ok(Seen::New {
                newest: 6,
                next: 7,
                open: 6,
                count: 6,
                open_count: 1,
            }),
        ),
        Looks(
            "K7",
            "CD-34",
            Ok(Seen::New {
                newest: 6,
                next: 7,
                open: 0,
                count: 6,
                open_count: 1,
            }),
        ),
        Counts(Count::Purged(2), Ok(1)),
        Looks("K1", "AB-12", Ok(Seen::Spent)),
        Looks("K3", "AB-12", Ok(Seen::Standing(3, 0))),
        Counts(Count::Purged(7), Ok(5)),
        Looks("K6", "AB-12", Ok(Seen::Spent)),
        Looks(
            "K7",
            "AB-12",
            Ok(Seen::New {
                newest: 0,
                next: 7,
                open: 0,
                count: 0,
                open_count: 0,
            }),
        ),
    ]),
];

#[test]
fn looks_at_a_key_and_a_plate(rt: HostRuntime) {
    walk(&rt, rt.alloc(), "looks at a key and a plate", LOOKS);
}

/// The tables in another order than a store makes them, other tables beside them, and no index.
const OTHER_ORDER: &str = "CREATE TABLE Weather (day INTEGER PRIMARY KEY AUTOINCREMENT, rain TEXT);
CREATE TABLE spent (request_key TEXT NOT NULL PRIMARY KEY, number INTEGER NOT NULL UNIQUE) STRICT;
CREATE TABLE journal (number INTEGER PRIMARY KEY, request_key TEXT NOT NULL UNIQUE, kind INTEGER NOT NULL, plate TEXT NOT NULL, moment INTEGER NOT NULL, gross_kg INTEGER, preset_kg INTEGER, interval_kg INTEGER NOT NULL, max_kg INTEGER NOT NULL, serial TEXT NOT NULL, digest TEXT NOT NULL, previous TEXT NOT NULL) STRICT;
CREATE INDEX by_moment ON journal (moment);
CREATE VIEW rainy AS SELECT day FROM Weather;
CREATE TABLE about (name TEXT NOT NULL PRIMARY KEY, value INTEGER NOT NULL) STRICT;
INSERT INTO about VALUES ('version', 2);
INSERT INTO Weather (rain) VALUES ('much')";

const AMONG_OTHERS: &[Step<'static>] = &[
    Step::Run(OTHER_ORDER),
    FIVE,
    Step::Open(&[Counts(Count::Purged(2), Ok(1))]),
    Step::Open(&[
        Counts(KEYS, Ok(1)),
        Counts(Count::Entries, Ok(4)),
        Finds(Look::Partner(5), Wanted::Number(2)),
        Finds(Look::Open("AB-12"), Wanted::Nothing),
    ]),
    Step::Shows("SELECT count(*) FROM rainy", 1),
];

#[test]
fn serves_tables_among_others_in_any_order(rt: HostRuntime) {
    walk(&rt, rt.alloc(), "tables among others", AMONG_OTHERS);
}
