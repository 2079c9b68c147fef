//! The office.
ghost use Rattle.std.specs.Prelude.{◌≡◌, Err, None, Ok, false, true};
ghost use Rattle.wb_office.specs.NamedEntry.{Names, entry_answered};
ghost use Rattle.wb_office.specs.Serves.{Serves};
ghost use Rattle.wb_office.specs.Wanted.{IsWanted, asks_store};
ghost use Rattle.wb_office.specs.WithoutStore.{Outright};

use crate::checking::answer_check;
use crate::export_answers::{answer_journal, answer_tickets};
use crate::indication::indication_text;
use crate::judging::WeighingRequest;
use crate::purging::answer_purge;
use crate::tickets::answer_ticket;
use crate::weighing::answer_weighing;
use sqlite::Alter;
use std::alloc::Global;
use std::marker::Model;
use wb_journal::{Kind, Moment};
use wb_messages::{Answer, EntryName, Refusal, Request};
use wb_scale::Scale;
use wb_store::Store;
use wb_window::Window;

/// The office of a weighbridge over the store of its journal, seen as the store.
#[derive(Drop)]
pub struct Office<D: Alter> {
    store: Store<D>,
}

impl<D: Alter> Model for Office<D> {
    ghost use Rattle.wb_store.specs.Journal.{StoreView, store_code};

    ghost Value = { StoreView D };

    ghost coded = { store_code D.code };

    ghost view = { λ o. o.store };
}

impl<D: Alter> Office<D> {
    /// An office over a store.
    pub fn new(store: Store<D>) -> Self
        ensures { result ≡ store }
    {
        Office { store }
    }

    /// The store.
    pub fn into_store(self) -> Store<D>
        ensures { result ≡ self }
    {
        let Office { store } = self;
        store
    }

    /// Answers a request at a moment, with the scale as it stands: what `office_answer` of `specs/Answer.antt` says of the situation, by the verdict of
    /// `specs/Verdict.antt` on a weighing or void.
    pub fn answer<W: Window>(
        &mut self,
        alloc: Global,
        scale: &mut Scale<W>,
        at: Moment,
        request: Request,
    ) -> Result<Answer, Refusal>
        ensures serves { asks_store request ≡ true
            → Serves D.Store self.old self.new scale.old scale.new at result (IsWanted request) }
        ensures outright { asks_store request ≡ false → (self.new ≡ self.old)
            × (scale.new ≡ scale.old) × Outright scale.old request result }
    {
        let mut name = None;
        self.answer_naming(alloc, scale, at, request, &mut name)
    }

    /// Answers a request as `answer` does, and leaves in `name` the entry that a weighing or void stored, now or earlier under its key. It leaves
    /// `None` at every other answer and at a refusal.
    pub fn answer_naming<W: Window>(
        &mut self,
        alloc: Global,
        scale: &mut Scale<W>,
        at: Moment,
        request: Request,
        name: &mut Option<EntryName>,
    ) -> Result<Answer, Refusal>
        ensures serves { asks_store request ≡ true
            → Serves D.Store self.old self.new scale.old scale.new at result (IsWanted request) }
        ensures outright { asks_store request ≡ false → (self.new ≡ self.old)
            × (scale.new ≡ scale.old) × Outright scale.old request result }
        ensures names { Names D.Store self.old self.new scale.old at result name.new
            (λ w. entry_answered w request) }
        ensures nameless { asks_store request ≡ false → name.new ≡ None }
    {
        *name = None;
        match request {
            Request::Weigh { key, kind, plate } => {
                let asked = WeighingRequest {
                    at,
                    key,
                    kind,
                    plate,
                };
                answer_weighing(&mut self.store, scale, asked, name)
            }
            Request::VoidOpen { key, plate } => {
                let asked = WeighingRequest {
                    at,
                    key,
                    kind: Kind::Void,
                    plate,
                };
                answer_weighing(&mut self.store, scale, asked, name)
            }
            Request::Ticket(0) => Err(Refusal::NoTicket),
            Request::Ticket(number) => answer_ticket(&mut self.store, number),
            Request::Indication => Ok(Answer::Text(indication_text(
                scale.instrument(),
                scale.indicated(),
            ))),
            Request::JournalCsv => answer_journal(alloc, &mut self.store),
            Request::TicketsCsv => answer_tickets(alloc, &mut self.store),
            Request::Purge => answer_purge(alloc, &mut self.store, scale.instrument(), at),
            Request::Check => answer_check(alloc, &mut self.store),
        }
    }
}
