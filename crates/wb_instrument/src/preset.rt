//! Preset tares.
ghost use Rattle.std.specs.Prelude.{◌≡◌, ◌↔◌, ◌≤◌, ℕ, Some, option_map, pos};
ghost use Rattle.wb_instrument.specs.Preset.{IsPreset, preset_in_range, preset};

use crate::Instrument;

/// Grams in a kilogram.
const GRAMS: u64 = 1_000;

impl Instrument {
    /// The preset tare of so many grams, in whole intervals from 1 to n; an exact half interval goes up.
    pub fn preset_of_grams(&self, grams: u64) -> Option<i32>
        ensures value { result ≡ option_map pos (preset self.now grams) }
        ensures nearest { (m : ℕ) → (result ≡ Some (pos m)) ↔ IsPreset self.now grams m }
    {
        let unit = GRAMS * u64::from(self.interval_kg());
        let most = u64::from(self.intervals());
        if (most + 1) * unit < grams {
            return None;
        }
        in_range(most, (2 * grams + unit) / (2 * unit))
    }
}

/// So many intervals, where they are from 1 to the most.
fn in_range(most: u64, rounded: u64) -> Option<i32>
    requires { most ≤ 10_000 }
    ensures { result ≡ option_map pos (preset_in_range most rounded) }
{
    if 1 <= rounded && rounded <= most {
        Some(rounded as i32)
    } else {
        None
    }
}
