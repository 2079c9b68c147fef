//! Why the office refuses.
ghost use Rattle.std.specs.Prelude.{◌≡◌};
ghost use Rattle.wb_messages.specs.RefusalText.{refusal_number, refusal_name};

use std::error::Error;
use std::fmt::{self, Display};
use wb_store::StoreFault;

/// A refusal of the office. Each has a number and a name, by which operators and programs know it, and is shown as these.
#[derive(Clone, Copy, Debug, PartialEq, Eq)]
pub enum Refusal {
    /// An entry with this key is stored, and its kind or plate differs.
    KeyReused,
    /// An entry with this key was purged.
    Gone,
    /// The moment is less than that of the newest entry.
    ClockBack,
    /// The last reading is lost, or there is none.
    NoLoad,
    /// Gross is above Max + 9 e.
    Overload,
    /// Gross is below -20 e.
    Underload,
    /// The load is not stable.
    Unstable,
    /// Gross is below Min, 20 e.
    BelowMin,
    /// A tare is in force for a First or Second, or a weighed one for a Single.
    TareActive,
    /// A Single without a preset tare below the gross.
    NoPreset,
    /// The bridge was not cleared since the last stored weighing, or since the opening.
    NotCleared,
    /// A weighing of the plate is open.
    AlreadyOpen,
    /// No weighing of the plate is open.
    NoOpen,
    /// The journal has no place for it, or the last number was given.
    JournalFull,
    /// Memory was refused, or the store refused.
    Store(StoreFault),
    /// No Second or Single has this number.
    NoTicket,
    /// An entry that is needed isn't sound, or has lost its partner.
    Damaged,
}

impl Refusal {
    /// The number, 1 to 17.
    pub fn number(self) -> u32
        ensures { result ≡ refusal_number self }
    {
        match self {
            Refusal::KeyReused => 1,
            Refusal::Gone => 2,
            Refusal::ClockBack => 3,
            Refusal::NoLoad => 4,
            Refusal::Overload => 5,
            Refusal::Underload => 6,
            Refusal::Unstable => 7,
            Refusal::BelowMin => 8,
            Refusal::TareActive => 9,
            Refusal::NoPreset => 10,
            Refusal::NotCleared => 11,
            Refusal::AlreadyOpen => 12,
            Refusal::NoOpen => 13,
            Refusal::JournalFull => 14,
            Refusal::Store(_) => 15,
            Refusal::NoTicket => 16,
            Refusal::Damaged => 17,
        }
    }

    /// The name, in small letters.
    pub fn name(self) -> &'static str
        ensures { result.now ≡ refusal_name self }
    {
        match self {
            Refusal::KeyReused => "key_reused",
            Refusal::Gone => "gone",
            Refusal::ClockBack => "clock_back",
            Refusal::NoLoad => "no_load",
            Refusal::Overload => "overload",
            Refusal::Underload => "underload",
            Refusal::Unstable => "unstable",
            Refusal::BelowMin => "below_min",
            Refusal::TareActive => "tare_active",
            Refusal::NoPreset => "no_preset",
            Refusal::NotCleared => "not_cleared",
            Refusal::AlreadyOpen => "already_open",
            Refusal::NoOpen => "no_open",
            Refusal::JournalFull => "journal_full",
            Refusal::Store(_) => "store",
            Refusal::NoTicket => "no_ticket",
            Refusal::Damaged => "damaged",
        }
    }
}

impl From<StoreFault> for Refusal {
    ghost use Rattle.wb_messages.specs.declared.refusal.Refusal.TheVariants.{Store};

    ghost from_gives = { λ fault refusal. refusal ≡ Store fault };

    fn from(fault: StoreFault) -> Refusal {
        Refusal::Store(fault)
    }
}

impl Display for Refusal {
    fn fmt<W: fmt::Write>(&self, f: &mut fmt::Formatter<W>) -> fmt::Result {
        write!(f, "{} {}", self.number(), self.name())
    }
}

impl Error for Refusal {}
