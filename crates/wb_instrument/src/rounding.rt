//! Rounding to the verification scale interval.
ghost use Rattle.std.specs.Prelude.{◌≡◌};
ghost use Rattle.wb_instrument.specs.Rounding.{IsRounded, round};

/// The whole intervals of `tenths` tenths of an interval: an exact half goes up.
pub fn round_tenths(tenths: i32) -> i32
    ensures nearest { IsRounded tenths result }
    ensures value { result ≡ round tenths }
{
    (i64::from(tenths) + 5).div_euclid(10) as i32
}
