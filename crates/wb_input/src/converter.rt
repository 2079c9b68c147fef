//! Lines of a load converter.
ghost use Rattle.std.specs.Prelude.{◌≡◌};
ghost use Rattle.wb_input.specs.ConverterLines.{converter_reading};
ghost use Rattle.wb_window.specs.Reading.{IsReading};

use crate::signed::number;
use wb_window::Reading;

/// The reading of a line, without its LF or CR LF: a load in tenths of the verification scale interval. A line that is no number
/// of 1 to 18 digits, with or without a minus sign, is a lost reading.
pub fn converter_line(line: &[u8]) -> Reading
    ensures value { result ≡ converter_reading line.now }
    ensures in_range { IsReading result }
{
    match number(line) {
        Some(tenths) => Reading::of(tenths),
        None => Reading::Lost,
    }
}
