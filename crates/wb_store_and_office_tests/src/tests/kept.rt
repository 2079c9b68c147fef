//! What the store keeps.
use super::calls::Call::{Appends, Counts, Finds};
use super::calls::{Count, Look, Wanted};
use super::steps::{Step, walk, walked_on};
use super::{FIRST, Row, SECOND};
use sqlite::{Connection, Start, Unknown, Wary};
use std::fs;
use std::test::Fail;
use wb_journal::Kind;

const EMPTY: &[Step<'static>] = &[Step::Open(&[
    Counts(Count::Next, Ok(1)),
    Counts(Count::Entries, Ok(0)),
    Finds(Look::Newest, Wanted::Nothing),
    Counts(Count::Pair, Ok(0)),
    Counts(Count::Open, Ok(0)),
])];

#[test]
fn finds_nothing_in_an_empty_database(rt: HostRuntime) {
    walk(&rt, rt.alloc(), "an empty database", EMPTY);
}

const ADD_PAIR: Step<'static> = Step::Open(&[Appends(FIRST, Ok(())), Appends(SECOND, Ok(()))]);

/// Each look-up finds the pair, with its texts and digests, and nothing else.
const PAIR: &[Step<'static>] = &[
    ADD_PAIR,
    Step::Open(&[
        Finds(Look::Key("K1"), Wanted::Entry(FIRST)),
        Finds(Look::Number(2), Wanted::Entry(SECOND)),
        Finds(Look::Newest, Wanted::Entry(SECOND)),
        Finds(Look::Open("AB-12"), Wanted::Nothing),
        Finds(Look::Number(3), Wanted::Nothing),
        Counts(Count::Spent(&["K1"]), Ok(0)),
        Counts(Count::Pair, Ok(2)),
        Counts(Count::Next, Ok(3)),
        Counts(Count::Entries, Ok(2)),
        Counts(Count::Open, Ok(0)),
    ]),
];

#[test]
fn gives_the_pair_back_once_opened_again(rt: HostRuntime) {
    walk(&rt, rt.alloc(), "the pair", PAIR);
}

const DIGEST: &[Step<'static>] = &[Step::Open(&[
    Appends(FIRST, Ok(())),
    Appends(SECOND, Ok(())),
    Finds(
        Look::Number(2),
        Wanted::Weighed(
            8_140,
            "b3b5f9b7b253a32759e7f7696c8248ad2d85333673358587ad599ef71b8e7d3e",
        ),
    ),
])];

#[test]
fn stores_the_digest_of_the_text(rt: HostRuntime) {
    walk(&rt, rt.alloc(), "the second weighing", DIGEST);
}

/// After each entry the open weighing of two plates, and how many are open, by the store and by its list of entries.
const OPEN_WEIGHINGS: &[Step<'static>] = &[Step::Open(&[
    Appends(Row(1, "K1", Kind::First, "AB-12"), Ok(())),
    Finds(Look::Open("AB-12"), Wanted::Number(1)),
    Finds(Look::Open("CD-34"), Wanted::Nothing),
    Finds(Look::OpenInList("AB-12"), Wanted::Number(1)),
    Finds(Look::OpenInList("CD-34"), Wanted::Nothing),
    Counts(Count::Open, Ok(1)),
    Counts(Count::OpenInList, Ok(1)),
    Appends(Row(2, "K2", Kind::First, "AB-12"), Ok(())),
    Finds(Look::Open("AB-12"), Wanted::Number(2)),
    Finds(Look::Open("CD-34"), Wanted::Nothing),
    Finds(Look::OpenInList("AB-12"), Wanted::Number(2)),
    Finds(Look::OpenInList("CD-34"), Wanted::Nothing),
    Counts(Count::Open, Ok(2)),
    Counts(Count::OpenInList, Ok(2)),
    Appends(Row(3, "K3", Kind::Second, "AB-12"), Ok(())),
    Finds(Look::Open("AB-12"), Wanted::Nothing),
    Finds(Look::Open("CD-34"), Wanted::Nothing),
    Finds(Look::OpenInList("AB-12"), Wanted::Nothing),
    Finds(Look::OpenInList("CD-34"), Wanted::Nothing),
    Counts(Count::Open, Ok(1)),
    Counts(Count::OpenInList, Ok(1)),
    Appends(Row(4, "K4", Kind::Single, "AB-12"), Ok(())),
    Finds(Look::Open("AB-12"), Wanted::Nothing),
    Finds(Look::Open("CD-34"), Wanted::Nothing),
    Finds(Look::OpenInList("AB-12"), Wanted::Nothing),
    Finds(Look::OpenInList("CD-34"), Wanted::Nothing),
    Counts(Count::Open, Ok(1)),
    Counts(Count::OpenInList, Ok(1)),
    Appends(Row(5, "K5", Kind::Void, "AB-12"), Ok(())),
    Finds(Look::Open("AB-12"), Wanted::Nothing),
    Finds(Look::Open("CD-34"), Wanted::Nothing),
    Finds(Look::OpenInList("AB-12"), Wanted::Nothing),
    Finds(Look::OpenInList("CD-34"), Wanted::Nothing),
    Counts(Count::Open, Ok(1)),
    Counts(Count::OpenInList, Ok(1)),
    Appends(Row(6, "K6", Kind::First, "CD-34"), Ok(())),
    Finds(Look::Open("AB-12"), Wanted::Nothing),
    Finds(Look::Open("CD-34"), Wanted::Number(6)),
    Finds(Look::OpenInList("AB-12"), Wanted::Nothing),
    Finds(Look::OpenInList("CD-34"), Wanted::Number(6)),
    Counts(Count::Open, Ok(2)),
    Counts(Count::OpenInList, Ok(2)),
    Appends(Row(7, "K7", Kind::Single, "CD-34"), Ok(())),
    Finds(Look::Open("AB-12"), Wanted::Nothing),
    Finds(Look::Open("CD-34"), Wanted::Number(6)),
    Finds(Look::OpenInList("AB-12"), Wanted::Nothing),
    Finds(Look::OpenInList("CD-34"), Wanted::Number(6)),
    Counts(Count::Open, Ok(2)),
    Counts(Count::OpenInList, Ok(2)),
    Appends(Row(8, "K8", Kind::First, "AB-12"), Ok(())),
    Finds(Look::Open("AB-12"), Wanted::Number(8)),
    Finds(Look::Open("CD-34"), Wanted::Number(6)),
    Finds(Look::OpenInList("AB-12"), Wanted::Number(8)),
    Finds(Look::OpenInList("CD-34"), Wanted::Number(6)),
    Counts(Count::Open, Ok(3)),
    Counts(Count::OpenInList, Ok(3)),
    Appends(Row(9, "K9", Kind::Void, "CD-34"), Ok(())),
    Finds(Look::Open("AB-12"), Wanted::Number(8)),
    Finds(Look::Open("CD-34"), Wanted::Nothing),
    Finds(Look::OpenInList("AB-12"), Wanted::Number(8)),
    Finds(Look::OpenInList("CD-34"), Wanted::Nothing),
    Counts(Count::Open, Ok(2)),
    Counts(Count::OpenInList, Ok(2)),
])];

#[test]
fn finds_the_open_weighing_of_each_plate(rt: HostRuntime) {
    walk(&rt, rt.alloc(), "open weighings", OPEN_WEIGHINGS);
}

const SPENT: &[Step<'static>] = &[
    Step::Open(&[]),
    Step::Run("INSERT INTO spent VALUES ('K2', 7), ('K1', 4)"),
    Step::Open(&[
        Counts(Count::Next, Ok(8)),
        Counts(Count::Entries, Ok(0)),
        Appends(Row(8, "K9", Kind::First, "AB-12"), Ok(())),
    ]),
    Step::Open(&[
        Counts(Count::Next, Ok(9)),
        Counts(Count::Entries, Ok(1)),
        Counts(Count::Spent(&["K1"]), Ok(1)),
        Counts(Count::Spent(&["K9"]), Ok(0)),
        Finds(Look::Key("K1"), Wanted::Nothing),
        Finds(Look::Key("K9"), Wanted::Number(8)),
    ]),
];

#[test]
fn counts_the_spent_keys_below_the_entries(rt: HostRuntime) {
    walk(&rt, rt.alloc(), "spent keys", SPENT);
}

const GREATEST: &[Step<'static>] = &[
    Step::Open(&[]),
    Step::Run("INSERT INTO spent VALUES ('K1', 4294967294)"),
    Step::Open(&[
        Counts(Count::Next, Ok(4_294_967_295)),
        Appends(Row(u32::MAX, "K9", Kind::First, "AB-12"), Ok(())),
    ]),
    Step::Open(&[
        Counts(Count::Next, Ok(4_294_967_296)),
        Finds(Look::Newest, Wanted::Number(u32::MAX)),
    ]),
];

#[test]
fn numbers_on_past_the_greatest_number(rt: HostRuntime) {
    walk(&rt, rt.alloc(), "the greatest number", GREATEST);
}

/// Runs the steps over the file, and closes it. Answers how many things were as wanted.
fn run_in_file<S: Start>(
    rt: &HostRuntime,
    start: S,
    steps: &[Step<'static>],
) -> Result<usize, Fail> {
    match Connection::open_from(rt, "wb_store_test/journal.db", false, start) {
        Ok(conn) => {
            let (_, done) = walked_on(rt.alloc(), conn, steps);
            Ok(done)
        }
        Err((error, _)) => Err(error.into()),
    }
}

/// The pair is stored as on a disk that may tear a write to any bytes, and read as on one that leaves each byte old or new.
#[test]
fn gives_the_pair_back_from_a_file(rt: HostRuntime) -> Result<(), Fail> {
    let _ = fs::remove_dir_all(&rt, "wb_store_test");
    fs::create_dir(&rt, "wb_store_test")?;
    let added = run_in_file(&rt, Wary, &[ADD_PAIR])?;
    let found = run_in_file(&rt, Unknown, &[PAIR[1]])?;
    fs::remove_dir_all(&rt, "wb_store_test")?;
    assert_eq!(rt; (added, found), (4, 12));
    Ok(())
}
