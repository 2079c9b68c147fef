//! A caller of the office.
//!
//! `Office::answer` answers as the definitions say of a situation: what came of the scale's calls, the lists of the store, and the moment. So
//! whoever knows after which calls the scale stands and for which lists the store, knows the answer, and the lists that it leaves.
ghost use Rattle.std.specs.Prelude.{◌≡◌, ◌∷◌, false, List};
ghost use Rattle.wb_journal.specs.declared.entry.EntryParts.{EntryParts};
ghost use Rattle.wb_office.specs.Answer.{office_answer, entries_left, spent_left};
ghost use Rattle.wb_messages.specs.Content.{content_or_refusal};
ghost use Rattle.wb_office.specs.Serves.{is_store_refusal};
ghost use Rattle.wb_office.specs.Situation.{Situation};
ghost use Rattle.wb_scale.specs.Call.{Call, read};
ghost use Rattle.wb_scale.specs.History.{moments};
ghost use Rattle.wb_scale.specs.Stands.{ScaleStands};
ghost use Rattle.wb_store.specs.Journal.{IsHonest, StoreStands};
ghost use Rattle.wb_tables.specs.Rows.{SpentKey};
ghost use Rattle.wb_window.specs.Reading.{IsReading};

use sqlite::Alter;
use std::alloc::Global;
use wb_journal::{Key, Kind, Moment, Plate};
use wb_office::{Answer, Office, Refusal, Request};
use wb_scale::Scale;
use wb_window::{Reading, Window};

/// Hands one more reading to the scale, and asks for a First of what it weighs then. Unless the store refuses, or memory for it, the
/// answer and the lists after it are those of the definitions.
pub fn weigh_first<W: Window, D: Alter>(
    alloc: Global,
    office: &mut Office<D>,
    scale: &mut Scale<W>,
    reading: Reading,
    at: Moment,
    key: Key,
    plate: Plate,
) -> Result<Answer, Refusal>
    requires { IsReading reading }
    ensures { (calls : List Call) (entries : List EntryParts) (spent : List SpentKey)
        → ScaleStands scale.old calls → StoreStands D.Store office.old entries spent
        → IsHonest D.Store office.new → is_store_refusal result ≡ false
        → let asked = Request.Weigh key Kind.First plate in
        let w : Situation = record {
          setup = scale.old.setup;
          history = moments scale.old.setup (read reading ∷ calls);
          entries = entries;
          spent = spent;
          at = at;
        } in
        (content_or_refusal result ≡ office_answer w 0 asked)
        × StoreStands D.Store office.new (entries_left w 0 asked) (spent_left w 0 asked) }
{
    scale.read(reading);
    let asked = Request::Weigh {
        key,
        kind: Kind::First,
        plate,
    };
    office.answer(alloc, scale, at, asked)
}
