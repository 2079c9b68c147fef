//! What is printed of a migration.
use super::store;
use sqlite::{Alter, Connection};
use std::alloc::Global;
use std::process::Abort;
use std::str;
use std::test::Fail;
use wb_fixtures::{MORNING, Plain, ZEROS, unsealed};
use wb_journal::{Entry, Kind};
use wb_program::print_migrated;
use wb_store::Store;

/// A First behind one with this digest.
fn first(number: u32, key: &str, plate: &str, previous: &str) -> Result<Entry, Fail> {
    let entry = unsealed(&Plain {
        number,
        key,
        kind: Kind::First,
        plate,
        moment: MORNING,
        gross_kg: Some(18_340),
        preset_kg: None,
        previous,
    });
    Ok(entry.ok_or("limits")?.sealed())
}

/// Three entries, each chained to the one before.
fn entries(alloc: Global) -> Result<Vec<Entry>, Fail> {
    let one = first(1, "K1", "AB-12", ZEROS)?;
    let two = first(2, "K2", "CD-34", one.digest().as_str())?;
    let three = first(3, "K3", "EF-56", two.digest().as_str())?;
    Ok(Vec::from_array(alloc, [one, two, three])?)
}

fn append<D: Alter>(store: &mut Store<D>, entries: &[Entry]) -> Result<(), Fail> {
    for entry in entries {
        store.append(entry)?;
    }
    Ok(())
}

fn is_printed<D: Alter>(
    rt: &impl Abort,
    alloc: Global,
    store: &Store<D>,
    line: &str,
) -> Result<(), Fail> {
    let mut writer = Vec::new(alloc);
    assert_eq!(rt; print_migrated(store, &mut writer), Ok(()));
    assert_eq!(rt; str::from_utf8(writer.as_slice())?, line);
    Ok(())
}

/// What is printed once these entries are stored.
fn prints<D: Alter + Drop>(
    rt: &impl Abort,
    alloc: Global,
    conn: Connection<D>,
    entries: &[Entry],
    line: &str,
) -> Result<(), Fail> {
    let mut store = store(conn)?;
    append(&mut store, entries)?;
    is_printed(rt, alloc, &store, line)
}

#[test]
fn prints_how_many_entries_were_brought_over(rt: HostRuntime) -> Result<(), Fail> {
    let alloc = rt.alloc();
    let entries = entries(alloc)?;
    prints(
        &rt,
        alloc,
        Connection::open_in_memory(alloc)?,
        &[],
        "MIGRATED 0\n",
    )?;
    prints(
        &rt,
        alloc,
        Connection::open_in_memory(alloc)?,
        &entries,
        "MIGRATED 3\n",
    )
}
