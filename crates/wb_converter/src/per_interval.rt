//! How many counts stand for an interval.
ghost use Rattle.std.specs.Prelude.{◌≡◌};
ghost use Rattle.wb_converter.specs.Sensitivity.{sensitivity_between, least_among, sensitivity_of};

use wb_calibration::{Calibration, Point};

/// The counts that stand for a verification scale interval, in tenths of a count, rounded down: the least between two
/// neighbouring points of the calibration.
pub fn sensitivity(calibration: &Calibration) -> u64
    ensures { result ≡ sensitivity_of calibration.now }
{
    match calibration.points() {
        [first, rest @ ..] => least_from(u64::MAX, *first, rest),
        [] => u64::MAX,
    }
}

/// The least of so many and of what lies between two neighbours, from a point on.
fn least_from(least: u64, before: Point, points: &[Point]) -> u64
    ensures { result ≡ least_among least before points.now }
{
    match points {
        [] => least,
        [point, rest @ ..] => least_from(least.min(between(before, *point)), *point, rest),
    }
}

/// Tenths of a count that stand for an interval between two points, rounded down.
fn between(lower: Point, upper: Point) -> u64
    ensures { result ≡ sensitivity_between lower upper }
{
    let counts = u64::from(upper.counts.abs_diff(lower.counts));
    let tenths = u64::from(upper.tenths.abs_diff(lower.tenths));
    counts * 100 / tenths.max(1)
}
