//! Decimal digits.
ghost use Rattle.std.specs.Char.{is_ascii_digit};
ghost use Rattle.std.specs.List.{list_all};
ghost use Rattle.std.specs.Prelude.{◌≡◌, ◌<◌, ◌≤◌, ◌^◌, IfSome, length};
ghost use Rattle.wb_input.specs.Digits.{is_numeral, numeral_value};

use std::str;

/// The digits that are read at most, so that every number fits in 64 bits, signed or not.
const DIGIT_LIMIT: usize = 18;

/// The number that 1 to `most` decimal digits give, never more than 18; none of any other text.
pub fn digits(text: &[u8], most: usize) -> Option<u64>
    ensures value { result ≡ numeral_value most text.now }
    ensures within { IfSome result (λ _. length text.now ≤ most) }
    ensures small { IfSome result (λ n. n < 10 ^ most) }
    ensures signed { IfSome result (λ n. n < 10 ^ 18) }
{
    if !are_digits(text, most) {
        return None;
    }
    match str::from_utf8(text) {
        Ok(digits) => digits.parse().ok(),
        Err(_) => None,
    }
}

fn are_digits(text: &[u8], most: usize) -> bool
    ensures { result ≡ is_numeral most text.now }
{
    !text.is_empty() && text.len() <= most && text.len() <= DIGIT_LIMIT && all_digits(text)
}

fn all_digits(text: &[u8]) -> bool
    ensures { result ≡ list_all is_ascii_digit text.now }
{
    text.iter().all(|byte| byte.is_ascii_digit())
}
