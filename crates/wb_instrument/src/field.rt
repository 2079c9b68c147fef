//! The text of a weight.
ghost use Rattle.std.specs.Prelude.{◌≡◌};
ghost use Rattle.wb_instrument.specs.WeightField.{weight_in_field};

use arrayvec::ArrayString;
use itoa::Buffer;

/// The characters that a weight is right-aligned in.
const WIDTH: usize = 10;

/// The number of kilograms, right-aligned in 10 characters; a longer number stands whole.
pub fn weight_field(kg: i32) -> ArrayString<16>
    ensures { result.bytes ≡ weight_in_field kg }
{
    let mut buffer = Buffer::new();
    let digits = buffer.format(kg);
    let mut text = ArrayString::<16>::new();
    'pad: for _ in 0..WIDTH.saturating_sub(digits.len()) {
        text.push_str(" ");
    }
    text.push_str(digits);
    text
}
