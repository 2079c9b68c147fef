//! What is printed of a store's journal, and lines of a load converter.
use super::store;
use sqlite::{Alter, Connection};
use std::alloc::Global;
use std::process::Abort;
use std::str;
use std::test::Fail;
use wb_fixtures::{LATER, MORNING, Plain, ZEROS, unsealed};
use wb_input::converter_line;
use wb_journal::{Entry, Kind};
use wb_program::{PrintFault, What, print_check, print_export};
use wb_store::{Store, StoreFault};
use wb_window::Reading;

const TICKETS: &str =
    "ticket,kind,plate,first,at,gross_kg,tare_kg,net_kg\n2,pair,AB-12,1,2025-03-10 09:30:00,18340,8140,10200\n";

const JOURNAL: &str =
    "number,key,kind,plate,moment,gross_kg,preset_kg,interval_kg,max_kg,serial,digest,previous\n1,K1,first,AB-12,2025-03-10 08:00:00,18340,,20,60000,WB01,a982a0aaef75f8622de6a96ef3a1d8ddd9de4bd18d9cda420eeb00dfbfcfa68c,0000000000000000000000000000000000000000000000000000000000000000\n2,K2,second,AB-12,2025-03-10 09:30:00,8140,,20,60000,WB01,b3b5f9b7b253a32759e7f7696c8248ad2d85333673358587ad599ef71b8e7d3e,a982a0aaef75f8622de6a96ef3a1d8ddd9de4bd18d9cda420eeb00dfbfcfa68c\n3,K3,first,AB-12,2025-03-10 09:30:00,18340,,20,60000,WB01,01e30b024cfd10a6e9470e5e74cd213a6ca5558594c34dd75eaef2e83393cfa5,b3b5f9b7b253a32759e7f7696c8248ad2d85333673358587ad599ef71b8e7d3e\n";

/// An entry behind one with this digest.
fn entry(
    number: u32,
    key: &str,
    kind: Kind,
    moment: u64,
    gross_kg: u32,
    previous: &str,
) -> Result<Entry, Fail> {
    let entry = unsealed(&Plain {
        number,
        key,
        kind,
        plate: "AB-12",
        moment,
        gross_kg: Some(gross_kg),
        preset_kg: None,
        previous,
    });
    Ok(entry.ok_or("limits")?)
}

/// Stores a pair of weighings and another first one. The very first has its digest, or none.
fn weigh<D: Alter>(store: &mut Store<D>, is_sound: bool) -> Result<(), Fail> {
    let first = entry(1, "K1", Kind::First, MORNING, 18_340, ZEROS)?;
    let first = if is_sound { first.sealed() } else { first };
    let second = entry(2, "K2", Kind::Second, LATER, 8_140, first.digest().as_str())?.sealed();
    let third = entry(
        3,
        "K3",
        Kind::First,
        LATER,
        18_340,
        second.digest().as_str(),
    )?
    .sealed();
    store.append(&first)?;
    store.append(&second)?;
    store.append(&third)?;
    Ok(())
}

/// What is asked of a store, and its answer.
#[derive(Clone, Copy, Drop)]
enum Asked {
    Check(Result<bool, PrintFault>),
    Export(What, Result<(), PrintFault>),
}

/// What is asked of a store, and what is printed.
type Row = (Asked, &'static str);

const OF_A_SOUND_JOURNAL: &[Row] = &[
    (Asked::Check(Ok(true)), "SOUND 3\n"),
    (Asked::Export(What::Journal, Ok(())), JOURNAL),
    (Asked::Export(What::Tickets, Ok(())), TICKETS),
];

/// Entry 1 has no digest, and entry 2 holds that of it, so the check names 1.
const OF_A_DAMAGED_JOURNAL: &[Row] = &[
    (Asked::Check(Ok(false)), "DAMAGED 1\n"),
    (Asked::Export(What::Tickets, Err(PrintFault::Damaged)), ""),
];

/// Asks for each row at one store.
fn prints_each<D: Alter + Drop>(
    rt: &impl Abort,
    alloc: Global,
    conn: Connection<D>,
    is_sound: bool,
    rows: &[Row],
) -> Result<(), Fail> {
    let mut store = store(conn)?;
    weigh(&mut store, is_sound)?;
    prints_rows(rt, alloc, &mut store, rows)
}

fn prints_rows<D: Alter>(
    rt: &impl Abort,
    alloc: Global,
    store: &mut Store<D>,
    rows: &[Row],
) -> Result<(), Fail> {
    for (asked, printed) in rows {
        prints(rt, alloc, store, asked, printed)?;
    }
    Ok(())
}

fn prints<D: Alter>(
    rt: &impl Abort,
    alloc: Global,
    store: &mut Store<D>,
    asked: &Asked,
    printed: &str,
) -> Result<(), Fail> {
    let mut writer = Vec::new(alloc);
    let is_answered = match asked {
        Asked::Check(wanted) => print_check(alloc, store, &mut writer) == *wanted,
        Asked::Export(what, wanted) => print_export(alloc, store, *what, &mut writer) == *wanted,
    };
    assert!(rt; is_answered, "the answer at {printed}");
    is_text(rt, writer.as_slice(), printed)
}

fn is_text(rt: &impl Abort, found: &[u8], wanted: &str) -> Result<(), Fail> {
    assert_eq!(rt; str::from_utf8(found)?, wanted);
    Ok(())
}

#[test]
fn prints_a_check_and_both_exports(rt: HostRuntime) -> Result<(), Fail> {
    let conn = Connection::open_in_memory(rt.alloc())?;
    prints_each(&rt, rt.alloc(), conn, true, OF_A_SOUND_JOURNAL)
}

#[test]
fn prints_no_tickets_of_a_damaged_journal(rt: HostRuntime) -> Result<(), Fail> {
    let conn = Connection::open_in_memory(rt.alloc())?;
    prints_each(&rt, rt.alloc(), conn, false, OF_A_DAMAGED_JOURNAL)
}

const REPORTED: &[(PrintFault, &str)] = &[
    (PrintFault::Store(StoreFault::Memory), "store 1 memory"),
    (PrintFault::Store(StoreFault::Disk), "store 2 disk"),
    (PrintFault::Store(StoreFault::Size), "store 3 size"),
    (PrintFault::Store(StoreFault::Foreign), "store 4 foreign"),
    (PrintFault::Store(StoreFault::Closed), "store 5 closed"),
    (
        PrintFault::Store(StoreFault::OldVersion),
        "store 6 old_version",
    ),
    (
        PrintFault::Store(StoreFault::NotVersion1),
        "store 7 not_version_1",
    ),
    (PrintFault::Store(StoreFault::NotEmpty), "store 8 not_empty"),
    (
        PrintFault::Store(StoreFault::Damaged(2)),
        "store 9 damaged 2",
    ),
    (PrintFault::Store(StoreFault::Gap(2)), "store 10 gap 2"),
    (PrintFault::Damaged, "refused 17 damaged"),
    (PrintFault::Write, "write fault"),
    (PrintFault::Memory, "want of memory"),
];

#[test]
fn reports_each_fault_by_its_line(rt: HostRuntime) -> Result<(), Fail> {
    for (fault, line) in REPORTED {
        is_text(
            &rt,
            format!(in rt.alloc(); "{fault}")?.as_str().as_bytes(),
            line,
        )?;
    }
    Ok(())
}

const CONVERTED: &[(&str, Reading)] = &[
    ("9170", Reading::Load(9_170)),
    ("-5", Reading::Load(-5)),
    ("000000000000000007", Reading::Load(7)),
    ("2000000", Reading::Load(2_000_000)),
    ("2000001", Reading::Lost),
    ("0000000000000000007", Reading::Lost),
    ("9170 ", Reading::Lost),
    ("+5", Reading::Lost),
    ("-", Reading::Lost),
    ("", Reading::Lost),
];

#[test]
fn reads_lines_of_a_converter(rt: HostRuntime) {
    for (line, reading) in CONVERTED {
        assert_eq!(rt; converter_line(line.as_bytes()), *reading, "{line}");
    }
}
