//! The plate of a vehicle.
ghost use Rattle.wb_journal.specs.Plate.{is_plate_byte};

use wb_instrument::{Alphabet, Code};

/// A plate: 1 to 12 characters of A-Z, 0-9 and `-`, seen as its bytes.
pub type Plate = Code<12, PlateCharacters>;

/// A-Z, 0-9 and `-`.
#[derive(Clone, Copy, Debug, Drop)]
pub struct PlateCharacters;

impl Alphabet for PlateCharacters {
    ghost holds = { is_plate_byte };

    fn holds(byte: u8) -> bool {
        matches!(byte, b'A'..=b'Z' | b'0'..=b'9' | b'-')
    }
}
