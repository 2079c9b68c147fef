//! The value of a preset tare.
ghost use Rattle.std.specs.Prelude.{◌≡◌, ◌<◌, IfSome};
ghost use Rattle.wb_sics.specs.Commands.{grams, scaled};

use wb_input::{digits, split_at_first};

/// Grams in a kilogram.
const GRAMS: u64 = 1_000;

/// The grams of a value in kilograms: 1 to 7 digits, then optionally a point and 1 to 3 digits.
pub(crate) fn grams_of(value: &[u8]) -> Option<u64>
    ensures { result ≡ grams value.now }
{
    match split_at_first(value, b'.') {
        Some((whole, fraction)) => {
            let kilograms = digits(whole, 7)?;
            Some(kilograms * GRAMS + grams_of_fraction(fraction)?)
        }
        None => Some(digits(value, 7)? * GRAMS),
    }
}

/// The grams of 1 to 3 digits after the point.
fn grams_of_fraction(fraction: &[u8]) -> Option<u64>
    ensures value { result ≡ scaled fraction.now }
    ensures small { IfSome result (λ grams. grams < 1_000_000) }
{
    let number = digits(fraction, 3)?;
    let scale = match fraction.len() {
        1 => 100,
        2 => 10,
        _ => 1,
    };
    Some(number * scale)
}
