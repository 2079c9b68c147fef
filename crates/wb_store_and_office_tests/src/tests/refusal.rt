//! Faults.
use super::calls::Call::{self, Appends, Counts, Finds};
use super::calls::{Count, Look, Wanted};
use super::steps::{Step, disks, run, walk};
use super::{FIRST, SECOND};
use sqlite::{Constraint, Error, ErrorCode};
use std::alloc::Global;
use std::process::Abort;
use wb_store::{StoreFault, fault_of};

/// An entry whose key is stored is added again: the store is closed to every call.
const CLOSED: &[Call] = &[
    Appends(FIRST, Ok(())),
    Appends(SECOND, Ok(())),
    Appends(SECOND, Err(StoreFault::Disk)),
    Finds(Look::Key("K1"), Wanted::Fault(StoreFault::Closed)),
    Finds(Look::Number(1), Wanted::Fault(StoreFault::Closed)),
    Finds(Look::Open("AB-12"), Wanted::Fault(StoreFault::Closed)),
    Counts(Count::Open, Err(StoreFault::Closed)),
    Finds(Look::Newest, Wanted::Fault(StoreFault::Closed)),
    Counts(Count::Entries, Err(StoreFault::Closed)),
    Counts(Count::Next, Err(StoreFault::Closed)),
    Counts(Count::Pair, Err(StoreFault::Closed)),
    Counts(Count::Spent(&["K1"]), Err(StoreFault::Closed)),
    Finds(Look::Partner(2), Wanted::Fault(StoreFault::Closed)),
    Counts(Count::Purged(1), Err(StoreFault::Closed)),
    Appends(SECOND, Err(StoreFault::Closed)),
];

#[test]
fn is_closed_by_an_entry_whose_key_stands(rt: HostRuntime) {
    walk(
        &rt,
        rt.alloc(),
        "a key that stands",
        &[
            Step::Open(CLOSED),
            Step::Open(&[Counts(Count::Pair, Ok(2))]),
        ],
    );
}

/// Whether the opening of a store is refused over a log that fails each call after so many, and told as a fault of the disk.
fn is_refused(rt: &impl Abort, alloc: Global, calls: u64) -> bool {
    let (_, opened) = run(
        alloc,
        disks(alloc, calls, u64::MAX),
        1_000,
        &[Step::Open(&[])],
    );
    if opened != 1 {
        return false;
    }
    let refused = [Step::Refused(StoreFault::Disk)];
    let (_, told) = run(alloc, disks(alloc, calls, u64::MAX), 1_000, &refused);
    assert_eq!(rt; told, 2, "after {calls} calls");
    true
}

#[test]
fn tells_a_disk_that_fails_while_a_store_opens(rt: HostRuntime) {
    let mut refusals = 0u32;
    for calls in 0..100 {
        if is_refused(&rt, rt.alloc(), calls) {
            refusals = refusals.saturating_add(1);
        }
    }
    assert!(rt; refusals > 0);
}

#[test]
fn tells_memory_and_size_from_the_disk(rt: HostRuntime) {
    for (code, fault) in [
        (ErrorCode::OutOfMemory, StoreFault::Memory),
        (ErrorCode::TooBig, StoreFault::Size),
        (
            ErrorCode::ConstraintViolation(Constraint::Unique),
            StoreFault::Disk,
        ),
        (ErrorCode::SystemIoFailure, StoreFault::Disk),
        (ErrorCode::Closed, StoreFault::Disk),
    ] {
        assert_eq!(rt; fault_of(&Error::SqliteFailure(code)), fault);
    }
}
