//! The one in the middle of some counts.
ghost use Rattle.std.specs.List.Sorted.{IsPermutation, IsSorted};
ghost use Rattle.std.specs.Ordering.{int_cmp};
ghost use Rattle.std.specs.Prelude.{◌≤◌, ◌<◌, ◌+ℤ◌, pos, length};
ghost use Rattle.wb_calibration.specs.Line.{IsNearest};
ghost use Rattle.wb_converter.specs.Filter.{IsMedian};

use crate::sample::nearest;
use arrayvec::ArrayVec;

/// The most counts of which a median is told.
pub(crate) const MOST_READINGS: usize = 32;

/// The median of 1 to 32 counts; of an even number of them the mean of the two in the middle, rounded to a whole number, an exact half up.
pub(crate) fn median(counts: &[i32]) -> i32
    requires some { 0 < length counts.now }
    requires few { length counts.now ≤ 32 }
    ensures { IsMedian counts.now result }
{
    let sorted = sorted(counts);
    let sorted = sorted.as_slice();
    middle(sorted[(sorted.len() - 1) / 2], sorted[sorted.len() / 2])
}

/// These counts in order, the least first.
fn sorted(counts: &[i32]) -> ArrayVec<i32, MOST_READINGS>
    requires { length counts.now ≤ 32 }
    ensures same { IsPermutation counts.now result.items }
    ensures order { IsSorted int_cmp result.items }
{
    let mut sorted = ArrayVec::new();
    match sorted.try_extend_from_slice(counts) {
        Ok(()) => {}
        Err(_) => unreachable!(),
    }
    sorted.sort_unstable();
    sorted
}

/// The mean of two counts, rounded to a whole number, an exact half up.
fn middle(lower: i32, upper: i32) -> i32
    ensures { IsNearest (lower +ℤ upper) (pos 2) result }
{
    nearest(i64::from(lower) + i64::from(upper), 2) as i32
}
