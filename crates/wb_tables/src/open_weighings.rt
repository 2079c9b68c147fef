//! The open weighings of the journal.
ghost use Rattle.std.specs.List.Sorted.{IsPermutation};
ghost use Rattle.std.specs.Prelude.{◌≡◌, IfErr, IfOk, OnOk, ◌∷◌, List};
ghost use Rattle.wb_journal.specs.Rising.{IsRising};
ghost use Rattle.wb_journal.specs.declared.entry.EntryParts.{EntryParts};
ghost use Rattle.wb_journal.specs.declared.kind.Kind.TheVariants.{First};
ghost use Rattle.wb_tables.specs.OpenTable.{open_weighings};
ghost use Rattle.wb_tables.specs.declared.failure.Failure.TheVariants.{Memory};
ghost use Rattle.wb_tables.specs.helpers.Collected.{HasCollected};

use crate::acceptance::put_text;
use crate::failure::Failure;
use std::alloc::Global;
use std::collections::HashSet;
use wb_journal::{Entry, Kind};

/// What is known after some of the entries.
#[derive(Drop)]
struct Pass {
    /// Their open weighings.
    open_weighings: Vec<Entry>,
    /// The plates of those that may be paired.
    plates: HashSet<String>,
}

/// The open weighings of these entries, the last first. Takes memory for them and for the plates.
pub fn open_weighings_of(alloc: Global, entries: Vec<Entry>) -> Result<Vec<Entry>, Failure>
    ensures collected { IsRising entries.items
        → IfOk result (λ found. IsPermutation found.items (open_weighings entries.items)) }
    ensures known { IfErr result (λ f. f ≡ Memory) }
{
    let mut pass = Pass {
        open_weighings: Vec::new(alloc),
        plates: HashSet::new(alloc),
    };
    let mut rest = entries;
    while let Some(entry) = rest.pop() {
        pass_entry(&mut pass, alloc, entry)?;
    }
    Ok(pass.open_weighings)
}

/// Goes past the entry before.
fn pass_entry(pass: &mut Pass, alloc: Global, entry: Entry) -> Result<(), Failure>
    ensures passed { (es : List EntryParts)
        → HasCollected pass.old.open_weighings.items pass.old.plates es
        → OnOk result (HasCollected pass.new.open_weighings.items pass.new.plates (entry ∷ es)) }
    ensures known { IfErr result (λ f. f ≡ Memory) }
{
    match entry.kind() {
        Kind::First => pass_first(pass, alloc, entry),
        Kind::Second | Kind::Void => put_text(&mut pass.plates, alloc, entry.plate().as_str()),
        Kind::Single => Ok(()),
    }
}

/// Goes past a First before: it is open where no later entry of its plate may be paired.
fn pass_first(pass: &mut Pass, alloc: Global, entry: Entry) -> Result<(), Failure>
    ensures passed { (es : List EntryParts) → entry.kind ≡ First
        → HasCollected pass.old.open_weighings.items pass.old.plates es
        → OnOk result (HasCollected pass.new.open_weighings.items pass.new.plates (entry ∷ es)) }
    ensures known { IfErr result (λ f. f ≡ Memory) }
{
    if pass.plates.contains(entry.plate().as_str()) {
        return Ok(());
    }
    put_text(&mut pass.plates, alloc, entry.plate().as_str())?;
    match pass.open_weighings.push(entry) {
        Ok(()) => Ok(()),
        Err(_) => Err(Failure::Memory),
    }
}
