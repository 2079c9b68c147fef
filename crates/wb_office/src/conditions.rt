//! The conditions on which a weighing or void whose key is new is refused, in their order.
ghost use Rattle.std.specs.Prelude.{◌≡◌, ◌+◌, ◌&&◌, IfSome, None, false, nat_lt, not};
ghost use Rattle.wb_journal.specs.Kind.{is_second_kind, is_void_kind};
ghost use Rattle.wb_office.specs.Conditions.{already_open, clock_back, damaged_first, journal_full, no_open, no_preset, not_cleared, places_needed, tare_active};
ghost use Rattle.wb_office.specs.Serves.{is_of_store};
ghost use Rattle.wb_office.specs.Situation.{Asking};
ghost use Rattle.wb_office.specs.Verdict.{first_refusal, of_new};
ghost use Rattle.wb_office.specs.helpers.ConditionGroups.{of_journal, of_load, of_tare};
ghost use Rattle.wb_office.specs.helpers.EvidenceShown.{Shows};
ghost use Rattle.wb_office.specs.helpers.IndicatedLoad.{is_preset_below_shown, refusal_of_shown};

use crate::evidence::Evidence;
use wb_instrument::MIN_INTERVALS;
use wb_journal::{Kind, is_sound};
use wb_messages::Refusal;
use wb_scale::{Indicated, TareNow};
use wb_store::Overview;

/// The last number of an entry.
const LAST_NUMBER: u64 = 4_294_967_295;

impl Evidence {
    /// Why the weighing or void is refused: by the first condition that holds.
    pub(crate) fn refusal(&self) -> Option<Refusal>
        ensures judged { (a : Asking) → Shows self.now a → result ≡ first_refusal of_new a }
        ensures plain { IfSome result (λ why. is_of_store why ≡ false) }
    {
        if self.is_clock_back() {
            return Some(Refusal::ClockBack);
        }
        if let Some(refusal) = self.refusal_of_load() {
            return Some(refusal);
        }
        if let Some(refusal) = self.refusal_of_tare() {
            return Some(refusal);
        }
        self.refusal_of_journal()
    }

    /// Whether the moment is less than that of the newest entry.
    fn is_clock_back(&self) -> bool
        ensures { (a : Asking) → Shows self.now a → result ≡ clock_back a }
    {
        match &self.journal.newest {
            Some(newest) => self.asked.at.seconds() < newest.moment().seconds(),
            None => false,
        }
    }

    /// Why the load is refused.
    fn refusal_of_load(&self) -> Option<Refusal>
        ensures judged { (a : Asking) → Shows self.now a → result ≡ first_refusal of_load a }
        ensures plain { IfSome result (λ why. is_of_store why ≡ false) }
    {
        if weighs(self.asked.kind) {
            refusal_of_indication(self.scale.indicated)
        } else {
            None
        }
    }

    /// Why the tare or the bridge is refused, where the load isn't.
    fn refusal_of_tare(&self) -> Option<Refusal>
        ensures judged { (a : Asking) → Shows self.now a → first_refusal of_load a ≡ None
            → result ≡ first_refusal of_tare a }
        ensures plain { IfSome result (λ why. is_of_store why ≡ false) }
    {
        if self.is_tare_active() {
            return Some(Refusal::TareActive);
        }
        if self.has_no_preset() {
            return Some(Refusal::NoPreset);
        }
        if self.is_not_cleared() {
            return Some(Refusal::NotCleared);
        }
        None
    }

    /// Why the journal refuses it.
    fn refusal_of_journal(&self) -> Option<Refusal>
        ensures judged { (a : Asking) → Shows self.now a → result ≡ first_refusal of_journal a }
        ensures plain { IfSome result (λ why. is_of_store why ≡ false) }
    {
        if self.is_already_open() {
            return Some(Refusal::AlreadyOpen);
        }
        if self.has_no_open() {
            return Some(Refusal::NoOpen);
        }
        if self.is_first_damaged() {
            return Some(Refusal::Damaged);
        }
        if self.is_journal_full() {
            return Some(Refusal::JournalFull);
        }
        None
    }

    /// Whether a tare is in force that the kind doesn't allow: any for a First or Second, a weighed one for a Single.
    fn is_tare_active(&self) -> bool
        ensures { (a : Asking) → Shows self.now a → result ≡ tare_active a }
    {
        match self.scale.tare {
            TareNow::Empty => false,
            TareNow::Weighed(_) => weighs(self.asked.kind),
            TareNow::Preset(_) => weighs(self.asked.kind) && !self.asked.kind.is_single(),
        }
    }

    /// Whether a Single has no preset tare below its gross.
    fn has_no_preset(&self) -> bool
        ensures { (a : Asking) → Shows self.now a → first_refusal of_load a ≡ None
            → result ≡ no_preset a }
    {
        self.asked.kind.is_single() && !is_preset_below(self.scale.tare, self.scale.indicated)
    }

    /// Whether the bridge was to be cleared first.
    fn is_not_cleared(&self) -> bool
        ensures { (a : Asking) → Shows self.now a → result ≡ not_cleared a }
    {
        weighs(self.asked.kind) && !self.scale.is_cleared
    }

    /// Whether a First finds a weighing of its plate open.
    fn is_already_open(&self) -> bool
        ensures { (a : Asking) → Shows self.now a → result ≡ already_open a }
    {
        self.asked.kind.is_first() && self.journal.open_weighing.is_some()
    }

    /// Whether a Second or Void finds none.
    fn has_no_open(&self) -> bool
        ensures { (a : Asking) → Shows self.now a → result ≡ no_open a }
    {
        self.asked.kind.is_closing() && self.journal.open_weighing.is_none()
    }

    /// Whether the First that a Second would close isn't sound.
    fn is_first_damaged(&self) -> bool
        ensures { (a : Asking) → Shows self.now a → result ≡ damaged_first a }
    {
        match &self.journal.open_weighing {
            Some(open) => is_second(self.asked.kind) && !is_sound(open),
            None => false,
        }
    }

    /// Whether the entry needs places that the journal hasn't, or a number after the last.
    fn is_journal_full(&self) -> bool
        ensures { (a : Asking) → Shows self.now a → result ≡ journal_full a }
    {
        lacks_places(self.capacity, &self.journal, places_of(self.asked.kind))
            || LAST_NUMBER < self.journal.next_number
    }
}

/// Whether the free places of the journal are fewer than so many.
fn lacks_places(capacity: u32, journal: &Overview, needed: usize) -> bool
    ensures { result ≡ (nat_lt 0 needed && nat_lt capacity (journal.now.count + journal.now.open_count + needed)) }
{
    let taken = journal.count.saturating_add(journal.open_count);
    (capacity as usize).saturating_sub(taken) < needed
}

/// The free places that an entry of the kind needs: a First keeps one for the entry that closes it, which so needs none.
fn places_of(kind: Kind) -> usize
    ensures { result ≡ places_needed kind }
{
    match kind {
        Kind::First => 2,
        Kind::Single => 1,
        Kind::Second | Kind::Void => 0,
    }
}

/// Whether a preset tare is in force below a gross that is shown.
fn is_preset_below(tare: TareNow, indicated: Indicated) -> bool
    ensures { result ≡ is_preset_below_shown tare indicated }
{
    match (tare, indicated) {
        (
            TareNow::Preset(whole),
            Indicated::Shown {
                gross,
                net: _,
                stable: _,
            },
        ) => whole < gross,
        (TareNow::Preset(_), Indicated::NoLoad | Indicated::Over | Indicated::Under) => false,
        (TareNow::Empty | TareNow::Weighed(_), _) => false,
    }
}

/// Whether an entry of the kind is a Second.
pub(crate) fn is_second(kind: Kind) -> bool
    ensures { result ≡ is_second_kind kind }
{
    matches!(kind, Kind::Second)
}

/// Whether an entry of the kind has a gross: each but a Void.
pub(crate) fn weighs(kind: Kind) -> bool
    ensures { result ≡ not (is_void_kind kind) }
{
    !matches!(kind, Kind::Void)
}

/// Why a load that is indicated so isn't stored.
fn refusal_of_indication(indicated: Indicated) -> Option<Refusal>
    ensures value { result ≡ refusal_of_shown indicated }
    ensures plain { IfSome result (λ why. is_of_store why ≡ false) }
{
    match indicated {
        Indicated::NoLoad => Some(Refusal::NoLoad),
        Indicated::Over => Some(Refusal::Overload),
        Indicated::Under => Some(Refusal::Underload),
        Indicated::Shown {
            gross,
            net: _,
            stable,
        } => {
            if !stable {
                Some(Refusal::Unstable)
            } else if gross < MIN_INTERVALS {
                Some(Refusal::BelowMin)
            } else {
                None
            }
        }
    }
}
