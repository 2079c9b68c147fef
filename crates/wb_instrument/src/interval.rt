//! Verification scale intervals.
ghost use Rattle.std.specs.Prelude.{◌≡◌};
ghost use Rattle.wb_instrument.specs.Interval.{is_allowed_interval};

/// The intervals e that an instrument may have, in kilograms: 1, 2 or 5 times a power of ten (OIML R 76-1:2006).
const INTERVALS_KG: [u32; 6] = [1, 2, 5, 10, 20, 50];

/// Whether so many kilograms are an interval e that an instrument may have.
pub fn is_interval(kg: u32) -> bool
    ensures { result ≡ is_allowed_interval kg }
{
    INTERVALS_KG.contains(&kg)
}
