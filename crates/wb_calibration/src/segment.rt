//! The straight line between two neighbouring points.
ghost use Rattle.std.specs.Prelude.{◌≡◌, ◌≤◌, ◌^◌, pos, ◌≤ℤ◌, ◌<ℤ◌, unsigned_abs};
ghost use Rattle.wb_calibration.specs.Line.{IsNearest, IsRoundedOnLine, stands_for_less, segment_among};
ghost use Rattle.wb_calibration.specs.helpers.Neighbours.{IsSegment};

use crate::Point;
use crate::point::turned;

/// Two neighbouring points.
#[derive(Clone, Copy, Debug)]
pub(crate) struct Segment {
    pub lower: Point,
    pub upper: Point,
}

/// The neighbours between which these counts lie, from two neighbours and the points above them on, or those at the end that
/// the counts are past.
pub(crate) fn segment_from(
    falls: bool,
    lower: Point,
    upper: Point,
    above: &[Point],
    counts: i32,
) -> Segment
    ensures { result ≡ segment_among falls lower upper above.now counts }
{
    match above {
        [] => Segment { lower, upper },
        [next, rest @ ..] => {
            if is_before(falls, counts, upper.counts) {
                Segment { lower, upper }
            } else {
                segment_from(falls, upper, *next, rest, counts)
            }
        }
    }
}

/// Whether counts stand for less load than others.
fn is_before(falls: bool, counts: i32, others: i32) -> bool
    ensures { result ≡ stands_for_less falls counts others }
{
    turned(falls, counts) < turned(falls, others)
}

impl Segment {
    /// The load of these counts on the line, in tenths, an exact half rounded up.
    pub(crate) fn load(&self, falls: bool, counts: i32) -> i64
        requires { IsSegment falls self.now }
        ensures { IsRoundedOnLine falls self.now counts result }
    {
        let lowest = turned(falls, self.lower.counts);
        let run = turned(falls, self.upper.counts) - lowest;
        let past = turned(falls, counts) - lowest;
        let rise = i64::from(self.upper.tenths - self.lower.tenths);
        i64::from(self.lower.tenths) + nearest(past * rise, run)
    }
}

/// A product divided by a run, rounded to a whole number, an exact half up.
fn nearest(product: i64, run: i64) -> i64
    requires product { unsigned_abs product ≤ 2 ^ 60 }
    requires positive { pos 0 <ℤ run }
    requires run { run ≤ℤ pos (2 ^ 60) }
    ensures nearest { IsNearest product run result }
    ensures small { unsigned_abs result ≤ 2 ^ 62 }
{
    (2 * product + run).div_euclid(2 * run)
}
