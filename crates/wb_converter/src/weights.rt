//! Test weights in tenths of the verification scale interval.
ghost use Rattle.std.specs.Prelude.{◌≡◌, ◌↔◌, ℤ, Some};
ghost use Rattle.wb_converter.specs.Weights.{IsTenthsOf};

/// The greatest load of a point, in tenths of the verification scale interval.
const GREATEST_TENTHS: u64 = 2_000_000;

/// The tenths of an interval that weights are, both given in kilograms, if these are a whole number that a point can have.
pub fn tenths_of_weights(kilograms: u32, interval: u32) -> Option<i32>
    ensures { (tenths : ℤ) → (result ≡ Some tenths) ↔ IsTenthsOf kilograms interval tenths }
{
    if interval == 0 {
        return None;
    }
    let tenths = u64::from(kilograms) * 10 / u64::from(interval);
    if tenths * u64::from(interval) != u64::from(kilograms) * 10 {
        return None;
    }
    if GREATEST_TENTHS < tenths {
        return None;
    }
    Some(tenths as i32)
}
