//! Calls of a store, each with the answer that is wanted.
use super::{FIRST, Row, SECOND, entry};
use sqlite::Alter;
use std::alloc::Global;
use wb_journal::{Entry, Key, Plate, entry_text, open_count, open_of};
use wb_store::{Sight, Store, StoreFault};

/// A call, and what is wanted of it.
#[derive(Clone, Copy, Drop)]
pub(super) enum Call {
    /// An entry is added.
    Appends(Row, Result<(), StoreFault>),
    /// An entry is looked up.
    Finds(Look, Wanted),
    /// A number is asked for.
    Counts(Count, Result<u64, StoreFault>),
    /// One look is taken at a key and a plate.
    Looks(&'static str, &'static str, Result<Seen, StoreFault>),
}

/// A look-up of an entry.
#[derive(Clone, Copy, Drop)]
pub(super) enum Look {
    /// The entry of a key.
    Key(&'static str),
    /// The entry of a number.
    Number(u32),
    /// The partner of the entry of a number.
    Partner(u32),
    /// The open weighing of a plate.
    Open(&'static str),
    /// The same, found in the list of the entries.
    OpenInList(&'static str),
    /// The newest entry.
    Newest,
}

/// What is wanted of a look-up.
#[derive(Clone, Copy, Drop)]
pub(super) enum Wanted {
    /// There is no such entry.
    Nothing,
    /// An entry of this number.
    Number(u32),
    /// This entry, with the same text and digest.
    Entry(Row),
    /// An entry of this gross in kilograms, and of this digest.
    Weighed(u32, &'static str),
    /// The store refuses.
    Fault(StoreFault),
}

/// What is counted.
#[derive(Clone, Copy, Drop)]
pub(super) enum Count {
    /// The entries.
    Entries,
    /// The entries that are listed, which are the first of the pair.
    Pair,
    /// The open weighings.
    Open,
    /// The same, counted in the list of the entries.
    OpenInList,
    /// The next number.
    Next,
    /// Those of these keys that are spent.
    Spent(&'static [&'static str]),
    /// What a purge below a bound takes out.
    Purged(u64),
}

/// What a look at a key and a plate shows, entries by their numbers, 0 for none.
#[derive(Clone, Copy, Drop, PartialEq, Eq)]
pub(super) enum Seen {
    /// The entry with the key, and its partner.
    Standing(u32, u32),
    Spent,
    New {
        newest: u32,
        next: u64,
        open: u32,
        count: usize,
        open_count: usize,
    },
}

/// Whether the store answers a call as is wanted.
fn is_wanted<D: Alter>(alloc: Global, store: &mut Store<D>, call: &Call) -> bool {
    match call {
        Call::Appends(row, wanted) => appended(store, row) == *wanted,
        Call::Finds(look, wanted) => is_found(found(alloc, store, look), wanted),
        Call::Counts(count, wanted) => counted(alloc, store, count) == *wanted,
        Call::Looks(key, plate, wanted) => looked(store, key, plate) == *wanted,
    }
}

/// How many of the calls the store answers as is wanted, up to the first that it doesn't.
pub(super) fn answered<D: Alter>(alloc: Global, store: &mut Store<D>, calls: &[Call]) -> usize {
    for (place, call) in calls.iter().enumerate() {
        if !is_wanted(alloc, store, call) {
            return place;
        }
    }
    calls.len()
}

/// Stands for a text of a row that can't be a key, a plate or an entry's: no row wants it.
const MALFORMED: StoreFault = StoreFault::Size;

fn appended<D: Alter>(store: &mut Store<D>, row: &Row) -> Result<(), StoreFault> {
    store.append(&entry(row).ok_or(MALFORMED)?)
}

fn found<D: Alter>(
    alloc: Global,
    store: &mut Store<D>,
    look: &Look,
) -> Result<Option<Entry>, StoreFault> {
    match look {
        Look::Key(key) => store.by_key(&Key::new(key).ok_or(MALFORMED)?),
        Look::Number(number) => store.by_number(*number),
        Look::Partner(number) => store.partner(*number),
        Look::Open(plate) => store.open_of(&Plate::new(plate).ok_or(MALFORMED)?),
        Look::OpenInList(plate) => open_in_list(alloc, store, plate),
        Look::Newest => store.newest(),
    }
}

fn looked<D: Alter>(store: &mut Store<D>, key: &str, plate: &str) -> Result<Seen, StoreFault> {
    let key = Key::new(key).ok_or(MALFORMED)?;
    let plate = Plate::new(plate).ok_or(MALFORMED)?;
    match store.look(&key, &plate)? {
        Sight::Standing(entry, partner) => {
            Ok(Seen::Standing(entry.number(), number_of(&partner)))
        }
        Sight::Spent => Ok(Seen::Spent),
        Sight::New(journal) => Ok(Seen::New {
            newest: number_of(&journal.newest),
            next: journal.next_number,
            open: number_of(&journal.open_weighing),
            count: journal.count,
            open_count: journal.open_count,
        }),
    }
}

/// The number of an entry, 0 where there is none.
fn number_of(entry: &Option<Entry>) -> u32 {
    match entry {
        Some(entry) => entry.number(),
        None => 0,
    }
}

/// The open weighing of the plate as it is found in the list of the entries, looked up by its number.
fn open_in_list<D: Alter>(
    alloc: Global,
    store: &mut Store<D>,
    plate: &str,
) -> Result<Option<Entry>, StoreFault> {
    let plate = Plate::new(plate).ok_or(MALFORMED)?;
    let entries = store.entries(alloc)?;
    match open_of(&entries, &plate) {
        Some(entry) => store.by_number(entry.number()),
        None => Ok(None),
    }
}

fn is_found(found: Result<Option<Entry>, StoreFault>, wanted: &Wanted) -> bool {
    match (found, wanted) {
        (Ok(None), Wanted::Nothing) => true,
        (Ok(Some(found)), Wanted::Number(number)) => found.number() == *number,
        (Ok(Some(found)), Wanted::Entry(row)) => is_entry(&found, row),
        (Ok(Some(found)), Wanted::Weighed(gross_kg, digest)) => {
            found.gross_kg() == Some(*gross_kg) && found.digest().as_str() == *digest
        }
        (Err(fault), Wanted::Fault(wanted)) => fault == *wanted,
        _ => false,
    }
}

/// Whether an entry has the parts of a row.
fn is_entry(found: &Entry, row: &Row) -> bool {
    match entry(row) {
        Some(wanted) => {
            entry_text(found).as_str() == entry_text(&wanted).as_str()
                && found.digest().as_str() == wanted.digest().as_str()
        }
        None => false,
    }
}

fn counted<D: Alter>(
    alloc: Global,
    store: &mut Store<D>,
    count: &Count,
) -> Result<u64, StoreFault> {
    match count {
        Count::Entries => store.count().map(|count| count as u64),
        Count::Pair => listed_of_pair(alloc, store),
        Count::Open => store.open_count().map(|count| count as u64),
        Count::OpenInList => {
            let entries = store.entries(alloc)?;
            Ok(open_count(&entries) as u64)
        }
        Count::Next => store.next_number(),
        Count::Spent(keys) => spent_among(store, keys),
        Count::Purged(bound) => store.purge(*bound).map(|count| count as u64),
    }
}

/// How many entries are listed, if they are the first of the pair.
fn listed_of_pair<D: Alter>(alloc: Global, store: &mut Store<D>) -> Result<u64, StoreFault> {
    let entries = store.entries(alloc)?;
    let is_of_pair = match entries.as_slice() {
        [] => true,
        [one] => is_entry(one, &FIRST),
        [one, other] => is_entry(one, &FIRST) && is_entry(other, &SECOND),
        _ => false,
    };
    if is_of_pair {
        Ok(entries.len() as u64)
    } else {
        Err(MALFORMED)
    }
}

fn spent_among<D: Alter>(store: &mut Store<D>, keys: &[&str]) -> Result<u64, StoreFault> {
    let mut spent = 0u64;
    for key in keys {
        if store.spent(&Key::new(key).ok_or(MALFORMED)?)? {
            spent = spent.saturating_add(1);
        }
    }
    Ok(spent)
}
