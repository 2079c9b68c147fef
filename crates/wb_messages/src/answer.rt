//! What the office answers.
use arrayvec::ArrayString;
use std::marker::Model;

/// The most bytes of a slip, a ticket or an indication.
pub const TEXT_ROOM: usize = 512;

/// An answer of the office.
#[derive(Debug, Drop)]
pub enum Answer {
    /// The slip of a First or Void.
    Slip(ArrayString<TEXT_ROOM>),
    /// The ticket of a Single, or of a Second with its partner.
    Ticket(ArrayString<TEXT_ROOM>),
    /// What is indicated.
    Text(ArrayString<TEXT_ROOM>),
    /// An export.
    Csv(CsvText),
    /// So many entries were purged.
    Purged(usize),
    /// The journal is sound, with so many entries.
    Sound(usize),
    /// The entry of this number isn't sound, or is a Second or Void without partner; it is the least such number.
    Damaged(u32),
}

/// The text of an export, seen as its bytes.
#[derive(Debug, Drop)]
pub struct CsvText {
    bytes: Vec<u8>,
}

impl Model for CsvText {
    ghost use Rattle.std.specs.Prelude.{ℕ, List};

    ghost Value = { List ℕ };

    ghost view = { λ t. t.bytes.items };
}

impl CsvText {
    ghost use Rattle.std.specs.Prelude.{◌≡◌};

    /// The text of these bytes.
    pub fn new(bytes: Vec<u8>) -> Self
        ensures { result ≡ bytes.items }
    {
        CsvText { bytes }
    }

    /// The bytes.
    pub fn as_slice(&self) -> &[u8]
        ensures { result.now ≡ self.now }
    {
        self.bytes.as_slice()
    }
}
