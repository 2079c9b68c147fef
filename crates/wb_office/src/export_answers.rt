//! The answers of the exports.
ghost use Rattle.std.specs.Prelude.{◌≡◌, ℕ, IfOk, List, Ok};
ghost use Rattle.wb_journal.specs.Rising.{IsRising};
ghost use Rattle.wb_messages.specs.Content.{csv_content};
ghost use Rattle.wb_office.specs.Answer.{tickets_answer};
ghost use Rattle.wb_office.specs.Serves.{Serves};
ghost use Rattle.wb_office.specs.Wanted.{IsWanted};
ghost use Rattle.wb_messages.specs.declared.request.Request.TheVariants as request;
ghost use Rattle.wb_office.specs.helpers.WantOfMemory.{IsAnsweredSo, WantsMemory};
ghost use Rattle.wb_scale.specs.State.{State};

use crate::checking::finding_of;
use crate::journal_export::journal_text;
use crate::tickets_export::tickets_text;
use sqlite::Alter;
use std::alloc::{AllocError, Global};
use wb_journal::{Entry, Finding};
use wb_messages::{Answer, CsvText, Refusal};
use wb_store::{Store, StoreFault};

/// Answers the export of the journal, also of one that is damaged.
pub(crate) fn answer_journal<D: Alter>(
    alloc: Global,
    store: &mut Store<D>,
) -> Result<Answer, Refusal>
    ensures { (scale : State) (at : ℕ) → Serves D.Store store.old store.new scale scale at result
        (IsWanted request.JournalCsv) }
{
    let entries = store.entries(alloc)?;
    let text = journal_text(alloc, &entries);
    exported(text)
}

/// Answers the export of the tickets, unless the journal is damaged.
pub(crate) fn answer_tickets<D: Alter>(
    alloc: Global,
    store: &mut Store<D>,
) -> Result<Answer, Refusal>
    ensures { (scale : State) (at : ℕ) → Serves D.Store store.old store.new scale scale at result
        (IsWanted request.TicketsCsv) }
{
    let entries = store.entries(alloc)?;
    tickets_if_sound(alloc, &entries)
}

fn tickets_if_sound(alloc: Global, entries: &[Entry]) -> Result<Answer, Refusal>
    ensures memory { WantsMemory result }
    ensures tells { IsRising entries.now → IsAnsweredSo result (tickets_answer entries.now) }
{
    match finding_of(alloc, entries)? {
        Finding::Sound(_) => {
            let text = tickets_text(alloc, entries);
            exported(text)
        }
        Finding::Damaged(_) => Err(Refusal::Damaged),
    }
}

/// The answer of an export. It is refused for want of memory alone.
fn exported(text: Result<CsvText, AllocError>) -> Result<Answer, Refusal>
    ensures memory { WantsMemory result }
    ensures tells { (wanted : List ℕ) → IfOk text (λ t. t ≡ wanted)
        → IsAnsweredSo result (Ok (csv_content wanted)) }
{
    match text {
        Ok(text) => Ok(Answer::Csv(text)),
        Err(_) => Err(Refusal::Store(StoreFault::Memory)),
    }
}
