//! What the office is asked.
ghost use Rattle.std.specs.Prelude.{◌≡◌};

use wb_journal::{Key, Kind, Plate};

/// A request to the office.
#[derive(Debug, Drop)]
pub enum Request {
    /// The load on the bridge is to be stored as an entry of this kind and plate. A Void is asked for as by `VoidOpen`.
    Weigh { key: Key, kind: Kind, plate: Plate },
    /// The plate's open weighing is to be voided.
    VoidOpen { key: Key, plate: Plate },
    /// The ticket of this number.
    Ticket(u32),
    /// What is indicated now.
    Indication,
    /// All entries, as CSV.
    JournalCsv,
    /// All tickets, as CSV.
    TicketsCsv,
    /// What is of age is to be purged.
    Purge,
    /// The check of the journal.
    Check,
}

impl Request {
    /// A copy of the request.
    pub fn copied(&self) -> Self
        ensures { result ≡ self.now }
    {
        match self {
            Request::Weigh { key, kind, plate } => Request::Weigh {
                key: key.copied(),
                kind: *kind,
                plate: plate.copied(),
            },
            Request::VoidOpen { key, plate } => Request::VoidOpen {
                key: key.copied(),
                plate: plate.copied(),
            },
            Request::Ticket(number) => Request::Ticket(*number),
            Request::Indication => Request::Indication,
            Request::JournalCsv => Request::JournalCsv,
            Request::TicketsCsv => Request::TicketsCsv,
            Request::Purge => Request::Purge,
            Request::Check => Request::Check,
        }
    }
}
