//! Points as lines of a text.
ghost use Rattle.arrayvec.specs.ArrayString.{array_string_len};
ghost use Rattle.arrayvec.specs.ArrayVec.{array_vec_len};
ghost use Rattle.std.specs.Fmt.{signed_decimal};
ghost use Rattle.std.specs.Int.{w32};
ghost use Rattle.std.specs.Prelude.{◌≡◌, ◌≤◌, ◌+◌, ◌*◌, ◌∷◌, ◌++◌, ℕ, ℤ, List, FitsSigned, IfSome, MatchOption, None, Some, length};
ghost use Rattle.wb_calibration.specs.declared.point.Point.{Point};
ghost use Rattle.wb_calibration_file.specs.File.{AreNumbers, IsNumbers, point_line, point_text, points_text};
ghost use Rattle.wb_calibration_file.specs.declared.text.TheConstants.{TEXT_ROOM};
ghost use Rattle.wb_calibration_file.specs.helpers.Behind.{IsBehindPoints};

use crate::text::TEXT_ROOM;
use arrayvec::{ArrayString, ArrayVec};
use itoa::Buffer;
use wb_calibration::{MOST_POINTS, Point};
use wb_input::{number, split_at_first};

/// The points that are read at most: one more than a calibration has, so that its fault can be told.
pub const MOST_READ: usize = MOST_POINTS + 1;

/// The text of points: a line for each.
pub fn text_of(points: &ArrayVec<Point, MOST_READ>) -> ArrayString<TEXT_ROOM>
    ensures { result.bytes ≡ points_text points.now.items }
{
    let mut text = ArrayString::new();
    push_points(&mut text, points.as_slice());
    text
}

/// The points of a text that has the line of each and nothing else; none of any other text.
pub fn points_of(text: &[u8]) -> Option<ArrayVec<Point, MOST_READ>>
    ensures is { IfSome result (λ points. text.now ≡ points_text points.items) }
    ensures each { (ps : List Point) → AreNumbers ps → length ps ≤ MOST_READ → text.now ≡ points_text ps → MatchOption result ⊥ (λ points. points.items ≡ ps) }
{
    let mut points = ArrayVec::new();
    push_points_of(&mut points, text);
    if text_of(&points).as_str().as_bytes() == text {
        Some(points)
    } else {
        None
    }
}

/// Appends a line for each point.
pub(crate) fn push_points(text: &mut ArrayString<TEXT_ROOM>, points: &[Point])
    requires { array_string_len text.old + 30 * length points.now ≤ TEXT_ROOM }
    ensures bytes { text.new.bytes ≡ text.old.bytes ++ points_text points.now }
    ensures room { array_string_len text.new ≤ array_string_len text.old + 30 * length points.now }
{
    match points {
        [] => {}
        [point, rest @ ..] => {
            push_point(text, *point);
            push_points(text, rest);
        }
    }
}

/// Appends the line of a point.
fn push_point(text: &mut ArrayString<TEXT_ROOM>, point: Point)
    requires { array_string_len text.old + 30 ≤ TEXT_ROOM }
    ensures bytes { text.new.bytes ≡ text.old.bytes ++ point_line point }
    ensures room { array_string_len text.new ≤ array_string_len text.old + 30 }
{
    text.push_str("point ");
    push_number(text, point.counts);
    text.push_str(" ");
    push_number(text, point.tenths);
    text.push_str("\n");
}

/// Appends a number.
fn push_number(text: &mut ArrayString<TEXT_ROOM>, number: i32)
    requires { array_string_len text.old + 11 ≤ TEXT_ROOM }
    ensures bytes { text.new.bytes ≡ text.old.bytes ++ signed_decimal number }
    ensures room { array_string_len text.new ≤ array_string_len text.old + 11 }
{
    let mut buffer = Buffer::new();
    text.push_str(buffer.format(number));
}

/// Appends the points of the lines with which this text begins.
pub(crate) fn push_points_of(points: &mut ArrayVec<Point, MOST_READ>, text: &[u8])
    ensures { (ps : List Point) (more : List ℕ) → AreNumbers ps → IsBehindPoints more → array_vec_len points.old + length ps ≤ MOST_READ
        → text.now ≡ points_text ps ++ more → points.new.items ≡ points.old.items ++ ps }
{
    let Some((line, rest)) = split_at_first(text, b'\n') else {
        return;
    };
    let Some(point) = point_of(line) else {
        return;
    };
    if points.try_push(point).is_err() {
        return;
    }
    push_points_of(points, rest);
}

/// The point of a line.
fn point_of(line: &[u8]) -> Option<Point>
    ensures point { (p : Point) → IsNumbers p → line.now ≡ point_text p → result ≡ Some p }
    ensures none { (more : List ℕ) → line.now ≡ 100 ∷ more → result ≡ None }
{
    let (counts, tenths) = split_at_first(line.strip_prefix(b"point ")?, b' ')?;
    let counts = number32(counts)?;
    let tenths = number32(tenths)?;
    Some(Point { counts, tenths })
}

/// The number of a text, if it fits in 32 bits.
fn number32(text: &[u8]) -> Option<i32>
    ensures { (z : ℤ) → FitsSigned w32 z → text.now ≡ signed_decimal z → result ≡ Some z }
{
    i32::try_from(number(text)?).ok()
}
