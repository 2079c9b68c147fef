//! Stops at each call of either file's disk while a whole station is asked. Opened again, a fresh station answers as it would if the
//! stopped request was made, or if it wasn't. Not opened again, it answers 503, and its scale goes on.
use super::days::Step;
use super::over_files::{Asked, CHECK, Fused, OF_AGE, SECOND, Stop, asked_on};
use sqlite::Files;
use sqlite_disk::{Crash, Disk, Fuse, Memory};
use std::alloc::Global;
use std::test::Fail;

/// So few that a stopped request reads from the files.
const ONE_PAGE: usize = 1;

/// Enough for all tables.
const ALL_PAGES: usize = 32;

/// So many calls behind those that an answer waits for.
const CALLS_AFTER: u32 = 8;

/// 2025-03-10 08:00:00, and an hour and a half later.
const MORNING: u64 = 1_741_593_600;

const LATER: u64 = 1_741_599_000;

const FIRST: &str =
    "POST /weighings HTTP/1.1\r\nContent-Length: 29\r\n\r\nkey=K1&kind=first&plate=AB-12";

const PURGE: &str = "POST /purge HTTP/1.1\r\nContent-Length: 0\r\n\r\n";

const TICKET: &str = "201 WEIGHING TICKET 2
PLATE AB-12
FIRST NO 1
AT 2025-03-10 08:00:00
G      18340 kg
E 20 kg MAX 60000 kg SERIAL WB01
DIGEST a982a0aaef75f8622de6a96ef3a1d8ddd9de4bd18d9cda420eeb00dfbfcfa68c
SECOND NO 2
AT 2025-03-10 09:30:00
G       8140 kg
E 20 kg MAX 60000 kg SERIAL WB01
DIGEST b3b5f9b7b253a32759e7f7696c8248ad2d85333673358587ad599ef71b8e7d3e
N      10200 kg
";

const WEIGHED_FIRST: [Step; 3] = [
    Step::Load(0, 1, ""),
    Step::Load(9_170, 4, ""),
    Step::Ask(MORNING, FIRST, "201 WEIGHING SLIP 1\n"),
];

const WEIGHED_SECOND: [Step; 3] = [
    Step::Load(0, 1, ""),
    Step::Load(4_070, 4, ""),
    Step::Ask(LATER, SECOND, TICKET),
];

const BOTH: [Step; 6] = [
    Step::Load(0, 1, ""),
    Step::Load(9_170, 4, ""),
    Step::Ask(MORNING, FIRST, "201 WEIGHING SLIP 1\n"),
    Step::Load(0, 1, ""),
    Step::Load(4_070, 4, ""),
    Step::Ask(LATER, SECOND, TICKET),
];

/// How many stops there were after which the request wasn't made, and after which it was.
#[derive(Clone, Copy)]
struct Count {
    anew: u32,
    made: u32,
}

/// Disks in memory on which these steps were answered.
fn prepared(alloc: Global, steps: &[Step]) -> Result<Fused, Fail> {
    let disks = Files {
        log: Fuse::new(Memory::new(alloc), u64::MAX),
        db: Fuse::new(Memory::new(alloc), u64::MAX),
    };
    match asked_on(alloc, disks, ALL_PAGES, Asked::Steps(steps))? {
        (disks, Some(true)) => Ok(disks),
        _ => Err("refused before the stop".into()),
    }
}

/// A disk with the same bytes, synced, which fails each call after so many.
fn fused(alloc: Global, disk: &Fuse<Memory>, calls: u64) -> Result<Fuse<Memory>, Fail> {
    let mut copy = Memory::new(alloc);
    copy.write_at(0, disk.inner().bytes())?;
    copy.sync()?;
    Ok(Fuse::new(copy, calls))
}

/// Copies of the disks, of which that of the log or that of the database fails each call after so many.
fn both_fused(alloc: Global, disks: &Fused, of_log: bool, calls: u64) -> Result<Fused, Fail> {
    let (log, db) = if of_log {
        (calls, u64::MAX)
    } else {
        (u64::MAX, calls)
    };
    Ok(Files {
        log: fused(alloc, &disks.log, log)?,
        db: fused(alloc, &disks.db, db)?,
    })
}

/// Opens the files again after a stop, and asks a fresh station.
fn was_made(alloc: Global, disks: Fused, stop: &Stop) -> Result<bool, Fail> {
    let mut disks = disks;
    disks.log.crash();
    disks.db.crash();
    let (_, made) = asked_on(alloc, disks, ALL_PAGES, Asked::Again(stop))?;
    Ok(made.ok_or("not opened again")?)
}

/// Whether a station opens where one file fails after so many calls.
fn opens(alloc: Global, disks: &Fused, of_log: bool, calls: u64) -> Result<bool, Fail> {
    let fused = both_fused(alloc, disks, of_log, calls)?;
    let (_, all) = asked_on(alloc, fused, ONE_PAGE, Asked::Steps(&[]))?;
    Ok(all == Some(true))
}

/// How many calls of one file an opening takes: fewer than 1,024.
fn opening_calls(alloc: Global, disks: &Fused, of_log: bool) -> Result<u64, Fail> {
    let mut too_few = 0u64;
    let mut enough = 1_024u64;
    for _ in 0..10 {
        let calls = too_few.saturating_add(enough) / 2;
        if opens(alloc, disks, of_log, calls)? {
            enough = calls;
        } else {
            too_few = calls;
        }
    }
    Ok(enough)
}

/// One stop after so many calls: whether all was answered, and whether the request was made.
fn stopped(
    alloc: Global,
    disks: &Fused,
    stop: &Stop,
    of_log: bool,
    calls: u64,
) -> Result<(bool, bool), Fail> {
    let fused = both_fused(alloc, disks, of_log, calls)?;
    let (left, all) = asked_on(alloc, fused, ONE_PAGE, Asked::Steps(stop.during))?;
    let all = all == Some(true);
    let made = was_made(alloc, left, stop)?;
    if all && !made {
        return Err("answered and not made".into());
    }
    Ok((all, made))
}

/// Stops at each call of one file, from the opening on, until all is answered, and at some calls after that.
fn stops(alloc: Global, stop: &Stop, of_log: bool) -> Result<Count, Fail> {
    let disks = prepared(alloc, stop.before)?;
    let opened = opening_calls(alloc, &disks, of_log)?;
    let mut count = Count { anew: 0, made: 0 };
    let mut answered = 0u32;
    for more in 0..1_000u64 {
        let (all, made) = stopped(alloc, &disks, stop, of_log, opened.saturating_add(more))?;
        if made {
            count.made = count.made.saturating_add(1);
        } else {
            count.anew = count.anew.saturating_add(1);
        }
        if all {
            answered = answered.saturating_add(1);
        }
        if answered == CALLS_AFTER {
            return Ok(count);
        }
    }
    Err("always stopped".into())
}

/// Whether stops of the log left the request unmade and made, and stops of the database left it unmade and made too.
fn are_met(alloc: Global, stop: &Stop) -> Result<bool, Fail> {
    let of_log = stops(alloc, stop, true)?;
    let of_database = stops(alloc, stop, false)?;
    Ok(of_log.anew > 0 && of_log.made > 0 && of_database.anew > 0 && of_database.made > 0)
}

#[test]
fn makes_a_stopped_second_or_judges_it_anew(rt: HostRuntime) -> Result<(), Fail> {
    let stop = Stop {
        before: &WEIGHED_FIRST,
        during: &WEIGHED_SECOND,
        anew: &[Step::Ask(LATER, SECOND, "409 refused 4 no_load\n")],
        made: &[Step::Ask(LATER, SECOND, TICKET)],
        after: &[
            Step::Load(0, 1, ""),
            Step::Load(4_070, 4, ""),
            Step::Ask(LATER, SECOND, TICKET),
            Step::Ask(LATER, CHECK, "200 SOUND 2\n"),
        ],
    };
    assert!(rt; are_met(rt.alloc(), &stop)?);
    Ok(())
}

#[test]
fn repeats_a_ticket_after_its_repetition_was_stopped(rt: HostRuntime) -> Result<(), Fail> {
    let stop = Stop {
        before: &BOTH,
        during: &[Step::Ask(LATER, SECOND, TICKET)],
        anew: &[],
        made: &[Step::Ask(LATER, SECOND, TICKET)],
        after: &[Step::Ask(LATER, CHECK, "200 SOUND 2\n")],
    };
    for of_log in [true, false] {
        assert_eq!(rt; stops(rt.alloc(), &stop, of_log)?.anew, 0);
    }
    Ok(())
}

#[test]
fn purges_whole_or_not_at_all(rt: HostRuntime) -> Result<(), Fail> {
    let stop = Stop {
        before: &BOTH,
        during: &[
            Step::Ask(OF_AGE - 1, PURGE, "200 PURGED 0\n"),
            Step::Ask(OF_AGE, PURGE, "200 PURGED 2\n"),
        ],
        anew: &[
            Step::Ask(OF_AGE, CHECK, "200 SOUND 2\n"),
            Step::Ask(OF_AGE, FIRST, "201 WEIGHING SLIP 1\n"),
            Step::Ask(OF_AGE, PURGE, "200 PURGED 2\n"),
        ],
        made: &[
            Step::Ask(OF_AGE, CHECK, "200 SOUND 0\n"),
            Step::Ask(OF_AGE, PURGE, "200 PURGED 0\n"),
        ],
        after: &[
            Step::Ask(OF_AGE, FIRST, "410 refused 2 gone\n"),
            Step::Ask(OF_AGE, SECOND, "410 refused 2 gone\n"),
            Step::Ask(OF_AGE, CHECK, "200 SOUND 0\n"),
        ],
    };
    assert!(rt; are_met(rt.alloc(), &stop)?);
    Ok(())
}
