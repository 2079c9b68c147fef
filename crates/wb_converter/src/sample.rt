//! Mean and spread of the counts under one load.
ghost use Rattle.std.specs.Prelude.{◌≡◌, ◌≤◌, ◌<◌, ◌*◌, ◌^◌, ℤ, pos, neg_ℤ, ◌≤ℤ◌, ◌<ℤ◌, ◌-ℤ◌, unsigned_abs, length};
ghost use Rattle.wb_calibration.specs.Line.{IsNearest};
ghost use Rattle.wb_converter.specs.Sample.{greatest_of, least_of, sum_of};

/// The mean of 1 to 10,000 counts, rounded to a whole number, an exact half up.
pub fn mean(counts: &[i32]) -> i32
    requires some { 0 < length counts.now }
    requires few { length counts.now ≤ 10000 }
    ensures { IsNearest (sum_of counts.now) (pos (length counts.now)) result }
{
    let mean = nearest(sum(counts), counts.len() as i64);
    mean as i32
}

/// How far the greatest of the counts is above the least.
pub fn spread(counts: &[i32]) -> i64
    ensures { result ≡ greatest_of counts.now -ℤ least_of counts.now }
{
    i64::from(greatest(counts)) - i64::from(least(counts))
}

fn sum(counts: &[i32]) -> i64
    requires { length counts.now ≤ 10000 }
    ensures sum { result ≡ sum_of counts.now }
    ensures low { neg_ℤ (pos (2147483648 * length counts.now)) ≤ℤ result }
    ensures high { result ≤ℤ pos (2147483647 * length counts.now) }
{
    let mut sum = 0;
    for one in counts {
        sum += i64::from(*one);
    }
    sum
}

fn greatest(counts: &[i32]) -> i32
    ensures { result ≡ greatest_of counts.now }
{
    let mut greatest = i32::MIN;
    for one in counts {
        greatest = greatest.max(*one);
    }
    greatest
}

fn least(counts: &[i32]) -> i32
    ensures { result ≡ least_of counts.now }
{
    let mut least = i32::MAX;
    for one in counts {
        least = least.min(*one);
    }
    least
}

/// A sum divided by a number, rounded to a whole number, an exact half up.
pub(crate) fn nearest(sum: i64, number: i64) -> i64
    requires sum { unsigned_abs sum ≤ 2 ^ 60 }
    requires positive { pos 0 <ℤ number }
    requires number { number ≤ℤ pos (2 ^ 60) }
    ensures { IsNearest sum number result }
{
    (2 * sum + number).div_euclid(2 * number)
}
