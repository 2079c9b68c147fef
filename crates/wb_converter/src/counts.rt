//! Lines of a reader of a load cell.
ghost use Rattle.std.specs.Prelude.{◌≡◌};
ghost use Rattle.wb_converter.specs.Counts.{counts_of, within_32_bits};

use wb_input::number;

/// The most bytes of a line without its LF. A longer line has no counts.
pub(crate) const LINE: usize = 64;

/// The counts of a line, without its LF or CR LF: a number of 1 to 18 digits, with or without a minus sign, that fits in 32 bits.
/// None of any other line, as of `lost`.
pub fn counts_line(line: &[u8]) -> Option<i32>
    ensures { result ≡ counts_of line.now }
{
    match number(line) {
        Some(counts) => fitting(counts),
        None => None,
    }
}

/// A number, if it fits in 32 bits.
fn fitting(number: i64) -> Option<i32>
    ensures { result ≡ within_32_bits number }
{
    if i64::from(i32::MIN) <= number && number <= i64::from(i32::MAX) {
        Some(number as i32)
    } else {
        None
    }
}
