//! The last load, and what of it is above the zero.
ghost use Rattle.std.specs.Prelude.{◌≡◌, ◌≤ℤ◌, IfSome, neg_ℤ, option_and_then, pos};
ghost use Rattle.wb_scale.specs.Zero.{load_of};
ghost use Rattle.wb_scale.specs.helpers.After.{above};
ghost use Rattle.wb_scale.specs.helpers.Load.{IsLoad, IsAbove};
ghost use Rattle.wb_window.specs.Reading.{IsReading};

use wb_window::Reading;

/// The load of the last reading, in tenths of e: none where it is lost, or there is no reading.
pub(crate) fn load_of_last(last: Option<Reading>) -> Option<i32>
    requires { IfSome last IsReading }
    ensures value { result ≡ option_and_then load_of last }
    ensures in_range { IfSome result IsLoad }
{
    match last {
        Some(reading) => load_of_reading(reading),
        None => None,
    }
}

/// The load of a reading, where it is not lost.
fn load_of_reading(reading: Reading) -> Option<i32>
    requires { IsReading reading }
    ensures value { result ≡ load_of reading }
    ensures in_range { IfSome result IsLoad }
{
    match reading {
        Reading::Load(load) => Some(load),
        Reading::Lost => None,
    }
}

/// A load above the zero.
pub(crate) fn load_above(load: Option<i32>, zero: i32) -> Option<i32>
    requires load { IfSome load IsLoad }
    requires zero { (neg_ℤ (pos 2_000) ≤ℤ zero) × (zero ≤ℤ pos 2_000) }
    ensures value { result ≡ above load zero }
    ensures in_range { IfSome result IsAbove }
{
    match load {
        Some(tenths) => Some(tenths - zero),
        None => None,
    }
}
