//! What is wrong with the points of a calibration.
ghost use Rattle.std.specs.Prelude.{◌≡◌, ◌+◌, ◌≤◌, length};
ghost use Rattle.wb_calibration.specs.Fault.{counts_are_apart, loads_are_apart, fault_behind, fault_of_points, is_possible_load};
ghost use Rattle.wb_calibration.specs.Turned.{counts_fall};

use crate::Point;
use crate::calibration::MOST_POINTS;
use crate::point::turned;
use thiserror::Error;

/// The points that a calibration has at least.
const LEAST_POINTS: usize = 2;

/// The greatest load that a converter hands in, in tenths of the verification scale interval.
const GREATEST_LOAD: i32 = 2_000_000;

/// How far neighbours are apart at least, in tenths of the verification scale interval and in counts.
const LEAST_TENTHS_APART: i32 = 100;

const LEAST_COUNTS_APART: i64 = 100;

/// The first fault of the points of a calibration. Places are counted from 1.
#[derive(Clone, Copy, Debug, PartialEq, Eq, Error)]
pub enum CalibrationFault {
    /// There are fewer than 2 points.
    #[error("1 Few")]
    Few,
    /// There are more than 8 points.
    #[error("2 Many")]
    Many,
    /// The load at this place is none of 0 to 2,000,000 tenths.
    #[error("3 Load {place}")]
    Load { place: u8 },
    /// The load at this place is not 100 tenths or more above the one before.
    #[error("4 Loads {place}")]
    Loads { place: u8 },
    /// The counts at this place are not 100 or more from those before, on the side on which the second point lies of the first.
    #[error("5 Counts {place}")]
    Counts { place: u8 },
}

/// The first fault of these points.
pub(crate) fn fault_of(points: &[Point]) -> Option<CalibrationFault>
    ensures { result ≡ fault_of_points points.now }
{
    if points.len() < LEAST_POINTS {
        return Some(CalibrationFault::Few);
    }
    if MOST_POINTS < points.len() {
        return Some(CalibrationFault::Many);
    }
    let falls = falls(points);
    match points {
        [] => None,
        [first, rest @ ..] => {
            if is_load(first.tenths) {
                fault_from(falls, 2, *first, rest)
            } else {
                Some(CalibrationFault::Load { place: 1 })
            }
        }
    }
}

/// Whether the counts fall from the first point to the second.
pub(crate) fn falls(points: &[Point]) -> bool
    ensures { result ≡ counts_fall points.now }
{
    match points {
        [first, second, ..] => second.counts < first.counts,
        _ => false,
    }
}

/// The first fault of the points that follow one, the first of them at this place.
fn fault_from(falls: bool, place: u8, before: Point, points: &[Point]) -> Option<CalibrationFault>
    requires { place + length points.now ≤ u8.MAX }
    ensures { result ≡ fault_behind falls place before points.now }
{
    match points {
        [] => None,
        [point, rest @ ..] => {
            if !is_load(point.tenths) {
                Some(CalibrationFault::Load { place })
            } else if !are_apart_loads(before, *point) {
                Some(CalibrationFault::Loads { place })
            } else if !are_apart_counts(falls, before, *point) {
                Some(CalibrationFault::Counts { place })
            } else {
                fault_from(falls, place + 1, *point, rest)
            }
        }
    }
}

/// Whether so many tenths are a load that a converter may hand in.
fn is_load(tenths: i32) -> bool
    ensures { result ≡ is_possible_load tenths }
{
    0 <= tenths && tenths <= GREATEST_LOAD
}

/// Whether the load of a point is far enough above that of the one before.
fn are_apart_loads(before: Point, point: Point) -> bool
    ensures { result ≡ loads_are_apart before point }
{
    i64::from(before.tenths) + i64::from(LEAST_TENTHS_APART) <= i64::from(point.tenths)
}

/// Whether the counts of a point are far enough from those of the one before.
fn are_apart_counts(falls: bool, before: Point, point: Point) -> bool
    ensures { result ≡ counts_are_apart falls before point }
{
    turned(falls, before.counts) + LEAST_COUNTS_APART <= turned(falls, point.counts)
}
