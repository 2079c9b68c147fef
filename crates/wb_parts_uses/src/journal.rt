//! Callers of the journal.
ghost use Rattle.std.specs.Option.{option_copied};
ghost use Rattle.std.specs.Prelude.{◌≡◌, ◌↔◌, IfSome, IsSome, option_map};
ghost use Rattle.wb_journal.specs.Digest.{sealed_entry};
ghost use Rattle.wb_journal.specs.Entry.{IsEntry};
ghost use Rattle.wb_journal.specs.Pairs.{partner_of, with_number};
ghost use Rattle.wb_journal.specs.Rising.{IsRising};
ghost use Rattle.wb_journal.specs.Texts.{slip, ticket};

use arrayvec::ArrayString;
use wb_journal::{Entry, EntryParts, partner, slip_text, ticket_text};

/// The slip of an entry of these parts, with its digest. None where they are outside the limits of a row.
pub fn slip_of(parts: EntryParts) -> Option<ArrayString<512>>
    ensures valid { IsSome result ↔ IsEntry parts }
    ensures text { IfSome result (λ text. text.bytes ≡ slip (sealed_entry parts)) }
{
    let entry = Entry::new(parts)?.sealed();
    slip_text(&entry).ok()
}

/// The ticket of the entry of a number, with its partner. None where no entry has the number.
pub fn ticket_of(entries: &[Entry], number: u32) -> Option<ArrayString<512>>
    ensures { IsRising entries.now → option_map (λ text. text.bytes) result
        ≡ option_map (λ entry. ticket entry (partner_of entries.now number))
        (with_number number entries.now) }
{
    match numbered(entries, number) {
        Some(entry) => ticket_text(entry, partner(entries, number)).ok(),
        None => None,
    }
}

fn numbered(entries: &[Entry], number: u32) -> Option<&Entry>
    ensures { option_copied result ≡ with_number number entries.now }
{
    entries.iter().find(|entry| entry.number() == number)
}
