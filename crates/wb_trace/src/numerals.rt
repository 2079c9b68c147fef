//! Numbers in a trace.
ghost use Rattle.std.specs.Prelude.{◌≡◌, ◌≤◌, ◌+◌, ◌*◌, IfSome, length, option_map, take};
ghost use Rattle.wb_trace.specs.Numerals.{bytes_of_hexadecimal, count_in};
ghost use Rattle.wb_trace.specs.RequestLines.{moment_in};

use wb_input::digits;
use wb_journal::Moment;

/// The digits that a number may have.
const MOST_DIGITS: usize = 18;

/// The times that a reading may be handed in by one line.
const MOST_TIMES: u64 = 10_000;

/// 1 to 10,000, with no leading zero.
pub(crate) fn count(text: &[u8]) -> Option<u32>
    ensures { result ≡ count_in text.now }
{
    match text {
        [] => None,
        [first, ..] => {
            if *first == b'0' {
                return None;
            }
            let times = digits(text, MOST_DIGITS)?;
            if 1 <= times && times <= MOST_TIMES {
                Some(times as u32)
            } else {
                None
            }
        }
    }
}

/// The seconds of a moment, with no leading zero.
pub(crate) fn moment(text: &[u8]) -> Option<Moment>
    ensures { result ≡ moment_in text.now }
{
    match text {
        [] => None,
        [_] => Moment::new(digits(text, MOST_DIGITS)?),
        [leading, _, ..] => {
            if *leading == b'0' {
                return None;
            }
            Moment::new(digits(text, MOST_DIGITS)?)
        }
    }
}

/// At least one byte in hexadecimal, decoded into the room: how many bytes they are.
pub(crate) fn hexadecimal(digits: &[u8], room: &mut [u8]) -> Option<usize>
    requires { length digits.now ≤ 2 * length room.old + 1 }
    ensures bytes { option_map (λ n. take n room.new) result ≡ bytes_of_hexadecimal digits.now }
    ensures within { IfSome result (λ n. n ≤ length room.new) }
    ensures room { length room.new ≡ length room.old }
{
    if digits.is_empty() {
        return None;
    }
    let count = digits.len() / 2;
    match hex::decode_to_slice(digits, &mut room[..count]) {
        Ok(()) => Some(count),
        Err(_) => None,
    }
}
