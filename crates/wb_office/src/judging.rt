//! The judgement of a weighing or void: by its key, and if the key is new by the conditions of `conditions.rt`.
ghost use Rattle.std.specs.Option.{option_copied};
ghost use Rattle.std.specs.Prelude.{◌≡◌, IfOk, None, Some, false, not, true};
ghost use Rattle.wb_instrument.specs.Setup.{IsSetup};
ghost use Rattle.wb_journal.specs.Digest.{is_sound_entry};
ghost use Rattle.wb_journal.specs.Pairs.{partner_in};
ghost use Rattle.wb_office.specs.Conditions.{holds_of, is_other, key_gone};
ghost use Rattle.wb_office.specs.Situation.{Asking, IsOnLists};
ghost use Rattle.wb_office.specs.helpers.EvidenceShown.{Shows, ShowsScale};
ghost use Rattle.wb_office.specs.helpers.JudgedByVerdict.{AsksFor, IsOnScale, MeetsVerdict, is_plain};
ghost use Rattle.wb_office.specs.helpers.Partners.{is_damaged_with};
ghost use Rattle.wb_scale.specs.Indication.{IsIndicationInRange};
ghost use Rattle.wb_scale.specs.Tare.{IsTare};
ghost use Rattle.wb_tables.specs.Lists.{AreLists, entry_by_key};
ghost use Rattle.wb_store.specs.Sight.{IsSeen, overview};
ghost use Rattle.wb_store.specs.Keeping.{LooksUpInStore};

use crate::conditions::is_second;
use crate::evidence::{Evidence, OfScale};
use crate::new_entry::new_entry;
use sqlite::Alter;
use wb_instrument::Instrument;
use wb_journal::{Entry, Key, Kind, Moment, Plate, is_sound};
use wb_messages::Refusal;
use wb_scale::Scale;
use wb_store::{Overview, Sight, Store, StoreFault};
use wb_window::Window;

/// A weighing or void that is asked for.
#[derive(Debug, Drop)]
pub(crate) struct WeighingRequest {
    pub(crate) at: Moment,
    pub(crate) key: Key,
    pub(crate) kind: Kind,
    pub(crate) plate: Plate,
}

/// What comes of it.
#[derive(Debug, Drop)]
pub(crate) enum Judgement {
    Refused(Refusal),
    /// The key repeats this entry; a Second comes with its partner.
    Repeated(Entry, Option<Entry>),
    /// This entry is to be added; a Second comes with the First that it closes.
    Accepted(Entry, Option<Entry>),
}

/// Judges a repeated key: of the entry with the key, and its partner.
fn judge_repetition(entry: Entry, partner: Option<Entry>, asked: &WeighingRequest) -> Judgement
    ensures plain { is_plain result ≡ true }
    ensures judged { (a : Asking) → AsksFor asked.now a → AreLists a.now.entries a.now.spent
        → entry_by_key a.now.entries a.key ≡ Some entry
        → partner ≡ partner_in a.now.entries entry → MeetsVerdict result a }
{
    if !is_same(&entry, asked) {
        return Judgement::Refused(Refusal::KeyReused);
    }
    if is_damaged(&entry, partner.as_ref()) {
        return Judgement::Refused(Refusal::Damaged);
    }
    Judgement::Repeated(entry, partner)
}

/// Whether the entry is of the kind and the plate that are asked for.
fn is_same(entry: &Entry, asked: &WeighingRequest) -> bool
    ensures { (a : Asking) → AsksFor asked.now a → result ≡ not (is_other a entry.now) }
{
    entry.kind() == asked.kind && entry.plate().as_str() == asked.plate.as_str()
}

/// Whether the entry isn't sound, or is a Second whose partner is missing or isn't sound.
pub(crate) fn is_damaged(entry: &Entry, partner: Option<&Entry>) -> bool
    ensures { result ≡ is_damaged_with entry.now (option_copied partner.entry) }
{
    !is_sound(entry) || (is_second(entry.kind()) && lacks_sound(partner))
}

/// Whether there is no entry that is sound.
fn lacks_sound(partner: Option<&Entry>) -> bool
    ensures { result ≡ not (holds_of is_sound_entry (option_copied partner.entry)) }
{
    match partner {
        Some(partner) => !is_sound(partner),
        None => true,
    }
}

/// Judges a weighing or void.
pub(crate) fn judge<W: Window, D: Alter>(
    store: &mut Store<D>,
    scale: &Scale<W>,
    asked: WeighingRequest,
) -> Result<Judgement, StoreFault>
    ensures looks { LooksUpInStore D.Store store.old store.new result (λ es ks judgement. (a : Asking)
        → AsksFor asked a → IsOnScale scale.now a → IsOnLists es ks a → MeetsVerdict judgement a) }
    ensures plain { IfOk result (λ judgement. is_plain judgement ≡ true) }
{
    let sight = store.look(&asked.key, &asked.plate)?;
    Ok(judge_sight(sight, scale, asked))
}

/// Judges by what is seen of the key and the plate.
fn judge_sight<W: Window>(sight: Sight, scale: &Scale<W>, asked: WeighingRequest) -> Judgement
    ensures plain { is_plain result ≡ true }
    ensures judged { (a : Asking) → AsksFor asked a → IsOnScale scale.now a
        → AreLists a.now.entries a.now.spent
        → IsSeen a.now.entries a.now.spent a.key a.plate sight → MeetsVerdict result a }
{
    match sight {
        Sight::Standing(entry, partner) => judge_repetition(entry, partner, &asked),
        Sight::Spent => Judgement::Refused(Refusal::Gone),
        Sight::New(journal) => judge_new(journal, scale, asked),
    }
}

/// Judges a key that is new.
fn judge_new<W: Window>(journal: Overview, scale: &Scale<W>, asked: WeighingRequest) -> Judgement
    ensures plain { is_plain result ≡ true }
    ensures judged { (a : Asking) → AsksFor asked a → IsOnScale scale.now a
        → entry_by_key a.now.entries a.key ≡ None → key_gone a ≡ false
        → journal ≡ overview a.now.entries a.now.spent a.plate → MeetsVerdict result a }
{
    let instrument = scale.instrument();
    let evidence = Evidence {
        asked,
        capacity: instrument.capacity(),
        scale: shown(scale),
        journal,
    };
    judge_evidence(instrument, evidence)
}

/// What the scale shows.
fn shown<W: Window>(scale: &Scale<W>) -> OfScale
    ensures shows { (a : Asking) → IsOnScale scale.now a → ShowsScale result a.now }
    ensures load { IsIndicationInRange scale.now.setup result.indicated }
    ensures tare { IsTare scale.now.setup result.tare }
{
    OfScale {
        indicated: scale.indicated(),
        tare: scale.tare_in_force(),
        is_cleared: scale.is_cleared(),
    }
}

/// Judges what the scale and the journal show.
fn judge_evidence(instrument: &Instrument, evidence: Evidence) -> Judgement
    requires setup { IsSetup instrument.now }
    requires load { IsIndicationInRange instrument.now evidence.scale.indicated }
    requires tare { IsTare instrument.now evidence.scale.tare }
    ensures plain { is_plain result ≡ true }
    ensures judged { (a : Asking) → a.now.setup ≡ instrument.now → Shows evidence a
        → entry_by_key a.now.entries a.key ≡ None → key_gone a ≡ false → MeetsVerdict result a }
{
    if let Some(refusal) = evidence.refusal() {
        return Judgement::Refused(refusal);
    }
    let Evidence {
        asked,
        capacity: _,
        scale,
        journal,
    } = evidence;
    match new_entry(asked, scale, &journal, instrument) {
        Some(entry) => Judgement::Accepted(entry, journal.open_weighing),
        None => Judgement::Refused(Refusal::JournalFull),
    }
}
