//! The text of an entry.
ghost use Rattle.std.specs.Option.{option_copied};
ghost use Rattle.std.specs.Prelude.{◌≡◌, IfOk, IsOk, List, true};
ghost use Rattle.wb_journal.specs.Kind.{is_second_kind};
ghost use Rattle.wb_journal.specs.Pairs.{partner_in};
ghost use Rattle.wb_journal.specs.declared.entry.EntryParts.{EntryParts};
ghost use Rattle.wb_office.specs.Answer.{entry_content};
ghost use Rattle.wb_messages.specs.Content.{content_of};

use std::alloc::AllocError;
use wb_journal::{Entry, Kind, slip_text, ticket_text};
use wb_messages::Answer;

/// The slip of a First or Void; the ticket of a Single, and of a Second with its partner.
pub(crate) fn text_of(entry: &Entry, partner: Option<&Entry>) -> Result<Answer, AllocError>
    ensures succeeds { IsOk result }
    ensures value { (es : List EntryParts)
        → (is_second_kind entry.now.kind ≡ true → option_copied partner.entry ≡ partner_in es entry.now)
        → IfOk result (λ answer. content_of answer ≡ entry_content es entry.now entry.now.kind) }
{
    match entry.kind() {
        Kind::First | Kind::Void => Ok(Answer::Slip(slip_text(entry)?)),
        Kind::Second => Ok(Answer::Ticket(ticket_text(entry, partner)?)),
        Kind::Single => Ok(Answer::Ticket(ticket_text(entry, None)?)),
    }
}
