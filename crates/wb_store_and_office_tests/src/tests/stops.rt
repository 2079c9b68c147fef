//! Stops of either disk of a database while a store opens, appends and purges.
use super::calls::Call::{self, Appends, Counts, Finds};
use super::calls::{Count, Look, Wanted};
use super::steps::{Disks, Step, one_stopped, run};
use super::{FIRST, SECOND};
use sqlite_disk::Crash;
use std::alloc::Global;
use std::test::Fail;

/// How many stages a run has: connected, opened, one entry added, both added, and the first of them purged.
const STAGES: usize = 5;

const RUN: &[Call] = &[
    Appends(FIRST, Ok(())),
    Appends(SECOND, Ok(())),
    Counts(Count::Purged(2), Ok(1)),
];

/// What an empty store answers.
const NOTHING: &[Call] = &[
    Counts(Count::Spent(&["K1"]), Ok(0)),
    Counts(Count::Pair, Ok(0)),
    Counts(Count::Entries, Ok(0)),
    Counts(Count::Open, Ok(0)),
];

/// What a store with one entry answers.
const ONE: &[Call] = &[
    Counts(Count::Spent(&["K1"]), Ok(0)),
    Counts(Count::Pair, Ok(1)),
    Counts(Count::Entries, Ok(1)),
    Counts(Count::Open, Ok(1)),
];

/// What a store with both answers.
const BOTH: &[Call] = &[
    Counts(Count::Spent(&["K1"]), Ok(0)),
    Counts(Count::Pair, Ok(2)),
    Counts(Count::Entries, Ok(2)),
    Counts(Count::Open, Ok(0)),
];

/// What it answers once the first of them is purged.
const PURGED: &[Call] = &[
    Counts(Count::Spent(&["K1"]), Ok(1)),
    Counts(Count::Entries, Ok(1)),
    Counts(Count::Open, Ok(0)),
    Finds(Look::Newest, Wanted::Entry(SECOND)),
];

/// What a crash leaves once so many stages were answered: what was answered, or what was asked last.
const LEAVES: [[&[Call]; 2]; 6] = [
    [NOTHING, NOTHING],
    [NOTHING, NOTHING],
    [NOTHING, ONE],
    [ONE, BOTH],
    [BOTH, PURGED],
    [PURGED, PURGED],
];

/// Whether a crash of the disks leaves a store that answers the one. Fails if it answers neither that nor the other.
pub(super) fn leaves_the_one(
    alloc: Global,
    disks: Disks,
    checkpoint_frames: usize,
    one: &[Call],
    other: &[Call],
) -> Result<bool, Fail> {
    let mut disks = disks;
    disks.log.crash();
    disks.db.crash();
    match run(alloc, disks, checkpoint_frames, &[Step::Either(one, other)]) {
        (_, 2) => Ok(true),
        (_, 3) => Ok(false),
        _ => Err("neither the one nor the other".into()),
    }
}

/// Whether a crash of the disks leaves what was answered and no more. Fails if it leaves neither that nor what was asked last.
fn is_alone(
    alloc: Global,
    disks: Disks,
    checkpoint_frames: usize,
    stages: usize,
) -> Result<bool, Fail> {
    let [answered, asked] = *LEAVES.get(stages).ok_or("stages")?;
    leaves_the_one(alloc, disks, checkpoint_frames, answered, asked)
}

/// How many stages were answered on one disk that stops after so many calls, and whether a crash left what was answered and no more.
fn stage_met(
    alloc: Global,
    of_log: bool,
    checkpoint_frames: usize,
    calls: u64,
) -> Result<(usize, bool), Fail> {
    let new = one_stopped(alloc, of_log, calls);
    let (left, stages) = run(alloc, new, checkpoint_frames, &[Step::Open(RUN)]);
    // A stop while the connection opens isn't the store's.
    let is_alone = stages > 0 && is_alone(alloc, left, checkpoint_frames, stages)?;
    Ok((stages, is_alone))
}

/// The stages after which a stop was met, and those after which some crash left what was answered and no more, over stops of one
/// disk at each of its calls.
fn stages_met(
    alloc: Global,
    of_log: bool,
    checkpoint_frames: usize,
) -> Result<[[bool; 6]; 2], Fail> {
    let mut stopped = [false; 6];
    let mut alone = [false; 6];
    for calls in 0..1_000u64 {
        let (stages, is_alone) = stage_met(alloc, of_log, checkpoint_frames, calls)?;
        *stopped.get_mut(stages).ok_or("stages")? = true;
        if is_alone {
            *alone.get_mut(stages).ok_or("stages")? = true;
        }
        if stages == STAGES {
            return Ok([stopped, alone]);
        }
    }
    Err("always stopped".into())
}

/// Stops are met after each stage; after each at which the database was connected, some crash leaves what was answered and no more.
const KEPT: [[bool; 6]; 2] = [[true; 6], [false, true, true, true, true, true]];

/// Each commit is copied from the log into the database at once.
#[test]
fn keeps_what_was_answered_over_stops_of_the_log(rt: HostRuntime) -> Result<(), Fail> {
    assert_eq!(rt; stages_met(rt.alloc(), true, 1)?, KEPT);
    Ok(())
}

/// Each commit is copied from the log into the database at once.
#[test]
fn keeps_what_was_answered_over_stops_of_the_database(rt: HostRuntime) -> Result<(), Fail> {
    assert_eq!(rt; stages_met(rt.alloc(), false, 1)?, KEPT);
    Ok(())
}

/// Nothing is copied from the log into the database.
#[test]
fn keeps_what_was_answered_over_stops_of_a_log_that_grows(rt: HostRuntime) -> Result<(), Fail> {
    assert_eq!(rt; stages_met(rt.alloc(), true, 1_000)?, KEPT);
    Ok(())
}
