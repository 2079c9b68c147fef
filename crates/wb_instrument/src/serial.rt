//! The serial of an instrument.
ghost use Rattle.wb_instrument.specs.Serial.{is_serial_byte};

use crate::code::{Alphabet, Code};

/// A serial: 1 to 16 characters of A-Z and 0-9, seen as its bytes.
pub type Serial = Code<16, SerialCharacters>;

/// A-Z and 0-9.
#[derive(Clone, Copy, Debug, Drop)]
pub struct SerialCharacters;

impl Alphabet for SerialCharacters {
    ghost holds = { is_serial_byte };

    fn holds(byte: u8) -> bool {
        matches!(byte, b'A'..=b'Z' | b'0'..=b'9')
    }
}
