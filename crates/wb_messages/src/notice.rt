//! Notices: what an event settled, as values for the program around a station.
ghost use Rattle.std.specs.Prelude.{◌≡◌};

use wb_journal::Digest;
use wb_store::StoreFault;

/// An entry of the journal, by its number and its digest.
#[derive(Debug, Drop)]
pub struct EntryName {
    pub number: u32,
    pub digest: Digest,
}

/// A report of what an event settled. The event's replies or its response say the same as text.
#[derive(Debug, Drop)]
pub enum Notice {
    /// Zero was set. It is this many tenths of e from the calibration zero.
    ZeroSet(i32),
    /// A request was answered.
    Answered {
        /// The status of the response.
        status: u16,
        /// The entry that a weighing or void stored now, or earlier under its key. `None` of every other answer.
        entry: Option<EntryName>,
        /// Why the store refused the request, if it did.
        fault: Option<StoreFault>,
    },
}

impl Notice {
    /// Returns a copy of the notice.
    pub fn copied(&self) -> Self
        ensures { result ≡ self.now }
    {
        match self {
            Notice::ZeroSet(tenths) => Notice::ZeroSet(*tenths),
            Notice::Answered {
                status,
                entry,
                fault,
            } => Notice::Answered {
                status: *status,
                entry: copied_name(entry),
                fault: *fault,
            },
        }
    }
}

fn copied_name(entry: &Option<EntryName>) -> Option<EntryName>
    ensures { result ≡ entry.now }
{
    match entry {
        Some(name) => Some(EntryName {
            number: name.number,
            digest: name.digest.copied(),
        }),
        None => None,
    }
}
