//! Tickets.
ghost use Rattle.std.specs.Option.{option_copied};
ghost use Rattle.std.specs.Prelude.{◌≡◌, ◌||◌, ℕ, List, Some, false, option_map};
ghost use Rattle.wb_journal.specs.Kind.{is_second_kind, is_single_kind};
ghost use Rattle.wb_journal.specs.Pairs.{partner_in};
ghost use Rattle.wb_journal.specs.declared.entry.EntryParts.{EntryParts};
ghost use Rattle.wb_office.specs.Answer.{ticket_of};
ghost use Rattle.wb_messages.specs.Content.{content_or_refusal};
ghost use Rattle.wb_office.specs.Serves.{Serves, is_store_refusal};
ghost use Rattle.wb_office.specs.Wanted.{IsWanted};
ghost use Rattle.wb_messages.specs.declared.request.Request.TheVariants as request;
ghost use Rattle.wb_office.specs.helpers.Partners.{IsPairOf, IsPaired};
ghost use Rattle.wb_scale.specs.State.{State};
ghost use Rattle.wb_store.specs.Keeping.{LooksUpInStore};

use crate::judging::is_damaged;
use crate::weighing::told_again;
use sqlite::Alter;
use wb_journal::{Entry, Kind};
use wb_messages::{Answer, Refusal};
use wb_store::{Store, StoreFault};

/// An entry, with its partner.
struct Pair {
    entry: Entry,
    partner: Option<Entry>,
}

/// Answers the ticket of a number.
pub(crate) fn answer_ticket<D: Alter>(store: &mut Store<D>, number: u32) -> Result<Answer, Refusal>
    ensures { (scale : State) (at : ℕ) → Serves D.Store store.old store.new scale scale at result
        (IsWanted (request.Ticket number)) }
{
    let found = find_pair(store, number)?;
    ticket(found)
}

/// The entry of a number, with its partner.
fn find_pair<D: Alter>(store: &mut Store<D>, number: u32) -> Result<Option<Pair>, StoreFault>
    ensures { LooksUpInStore D.Store store.old store.new result (λ es ks found. IsPairOf es number found) }
{
    match store.by_number(number)? {
        Some(entry) => {
            let partner = store.partner(number)?;
            Ok(Some(Pair { entry, partner }))
        }
        None => Ok(None),
    }
}

/// The ticket of an entry, if it has one.
fn ticket(found: Option<Pair>) -> Result<Answer, Refusal>
    ensures plain { is_store_refusal result ≡ false }
    ensures value { (es : List EntryParts) → IsPaired es found
        → content_or_refusal result ≡ ticket_of es (option_map (λ pair. pair.entry) found) }
{
    match found {
        Some(Pair { entry, partner }) => ticket_of_pair(&entry, partner.as_ref()),
        None => Err(Refusal::NoTicket),
    }
}

fn ticket_of_pair(entry: &Entry, partner: Option<&Entry>) -> Result<Answer, Refusal>
    ensures plain { is_store_refusal result ≡ false }
    ensures value { (es : List EntryParts) → option_copied partner.entry ≡ partner_in es entry.now
        → content_or_refusal result ≡ ticket_of es (Some entry.now) }
{
    if !has_ticket(entry.kind()) {
        return Err(Refusal::NoTicket);
    }
    if is_damaged(entry, partner) {
        return Err(Refusal::Damaged);
    }
    told_again(entry, partner)
}

/// Whether an entry of the kind has a ticket: a Second or a Single.
fn has_ticket(kind: Kind) -> bool
    ensures { result ≡ (is_second_kind kind || is_single_kind kind) }
{
    matches!(kind, Kind::Second | Kind::Single)
}
