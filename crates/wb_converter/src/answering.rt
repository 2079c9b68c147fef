//! What is handed to the client for a line of counts.
ghost use Rattle.std.specs.Prelude.{◌≡◌, ℤ, None, Some};
ghost use Rattle.wb_calibration.specs.Line.{IsLoadOf};
ghost use Rattle.wb_converter.specs.Answer.{line_of, lost_line};
ghost use Rattle.wb_converter.specs.Counts.{counts_of};

use crate::counts::counts_line;
use arrayvec::ArrayString;
use itoa::Buffer;
use wb_calibration::Calibration;

/// The line that is handed on for a line of counts, without its LF or CR LF: the load in tenths of the verification scale interval,
/// or `lost` if the line has no counts, or these no load.
pub fn answer(calibration: &Calibration, line: &[u8]) -> ArrayString<12>
    ensures load { (counts tenths : ℤ) → counts_of line.now ≡ Some counts → IsLoadOf calibration.now counts tenths
        → result.bytes ≡ line_of tenths }
    ensures no_load { (counts : ℤ) → counts_of line.now ≡ Some counts
        → ((tenths : ℤ) → ¬ IsLoadOf calibration.now counts tenths) → result.bytes ≡ lost_line }
    ensures no_counts { counts_of line.now ≡ None → result.bytes ≡ lost_line }
{
    answer_to(calibration, counts_line(line))
}

/// The line that is handed on for counts, or for a reading that has none.
pub fn answer_to(calibration: &Calibration, counts: Option<i32>) -> ArrayString<12>
    ensures load { (n tenths : ℤ) → counts ≡ Some n → IsLoadOf calibration.now n tenths → result.bytes ≡ line_of tenths }
    ensures no_load { (n : ℤ) → counts ≡ Some n → ((tenths : ℤ) → ¬ IsLoadOf calibration.now n tenths)
        → result.bytes ≡ lost_line }
    ensures no_counts { counts ≡ None → result.bytes ≡ lost_line }
{
    match counts {
        Some(counts) => match calibration.load(counts) {
            Some(tenths) => load_line(tenths),
            None => lost(),
        },
        None => lost(),
    }
}

/// The line of a load.
fn load_line(tenths: i32) -> ArrayString<12>
    ensures { result.bytes ≡ line_of tenths }
{
    let mut buffer = Buffer::new();
    let mut text = ArrayString::new();
    text.push_str(buffer.format(tenths));
    text.push_str("\n");
    text
}

fn lost() -> ArrayString<12>
    ensures { result.bytes ≡ lost_line }
{
    let mut text = ArrayString::new();
    text.push_str("lost\n");
    text
}
