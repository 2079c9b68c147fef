//! A number as it is written on a line.
ghost use Rattle.std.specs.Prelude.{◌≡◌};
ghost use Rattle.wb_input.specs.Number.{signed_number};

use crate::decimal::digits;

/// The digits that a number may have.
const MOST_DIGITS: usize = 18;

/// An optional minus sign, and 1 to 18 digits; none of any other text.
pub fn number(text: &[u8]) -> Option<i64>
    ensures { result ≡ signed_number text.now }
{
    match text {
        [] => None,
        [first, rest @ ..] => {
            if *first == b'-' {
                Some(-(digits(rest, MOST_DIGITS)? as i64))
            } else {
                Some(digits(text, MOST_DIGITS)? as i64)
            }
        }
    }
}
