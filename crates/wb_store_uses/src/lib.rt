//! Callers of the store, to copy.
//!
//! A clause of `Store` speaks of the lists for which the store stood before the call. So a caller of several goes on from what each call
//! left: one look-up after another leaves the lists as they were, if nobody else wrote the files until the last call ended.
#![tactic(auto)]

ghost use Rattle.sqlite.specs.Steps.{over_memory};
ghost use Rattle.std.specs.Bool.{Decides};
ghost use Rattle.std.specs.Prelude.{◌++◌, [], ◌∷◌, if◌then◌else◌, IfOk, IfSome, List};
ghost use Rattle.wb_journal.specs.declared.entry.EntryParts.{EntryParts};
ghost use Rattle.wb_store.specs.Journal.{IsHonest, StoreStands};
ghost use Rattle.wb_store.specs.Keeping.{LeavesOnly};
ghost use Rattle.wb_tables.specs.Lists.{IsNext};
ghost use Rattle.wb_tables.specs.Rows.{SpentKey};

use sqlite::{Alter, Connection, MemStore};
use std::alloc::Global;
use wb_journal::{Entry, previous_of};
use wb_store::{Store, StoreFault};

/// A store in memory, with nothing in it. None where memory is refused.
pub fn open_in_memory(alloc: Global) -> Option<Store<MemStore>>
    ensures stands { IfSome result (λ store. StoreStands over_memory store [] []) }
    ensures honest { IfSome result (IsHonest over_memory) }
{
    match Connection::open_in_memory(alloc) {
        Ok(conn) => match Store::open(conn) {
            Ok(store) => Some(store),
            Err(_) => None,
        },
        Err(_) => None,
    }
}

/// Adds an entry, where it has the next number, its key neither stands nor was spent, and it has the digest of the entry one number
/// below, zeros where none stands there: what `append` asks for. Tells whether it was added; a crash leaves the entries that stand
/// then.
pub fn add_if_free<D: Alter>(store: &mut Store<D>, entry: &Entry) -> Result<bool, StoreFault>
    ensures { (entries : List EntryParts) (spent : List SpentKey)
        → StoreStands D.Store store.old entries spent → IsHonest D.Store store.new
        → IfOk result (λ is_added.
        StoreStands D.Store store.new (if is_added then entries ++ entry.now ∷ [] else entries) spent
        × LeavesOnly D.Store store.new (if is_added then entries ++ entry.now ∷ [] else entries) spent
        × Decides is_added (IsNext entries spent entry.now)) }
{
    if store.by_key(entry.key())?.is_some() {
        return Ok(false);
    }
    if store.spent(entry.key())? {
        return Ok(false);
    }
    if store.next_number()? != u64::from(entry.number()) {
        return Ok(false);
    }
    let newest = store.newest()?;
    let previous = previous_of(newest.as_ref(), entry.number());
    if entry.previous().as_str() != previous.as_str() {
        return Ok(false);
    }
    store.append(entry)?;
    Ok(true)
}
