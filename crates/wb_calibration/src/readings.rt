//! Of how many readings one value is made.
ghost use Rattle.std.specs.Prelude.{◌≡◌, ◌↔◌, IfSome, IsSome};
ghost use Rattle.wb_calibration.specs.Readings.{IsNumberOfReadings};

use std::marker::Model;

/// The most readings of which one value is made: three seconds at ten readings a second.
const MOST_READINGS: u64 = 32;

/// Of how many readings a value is made, 1 to 32, seen as their number.
#[derive(Clone, Copy, Debug, PartialEq, Eq)]
pub struct Readings {
    number: u8,
}

impl Model for Readings {
    ghost use Rattle.std.specs.Prelude.{ℕ};
    ghost use Rattle.wb_calibration.specs.Readings.{IsNumberOfReadings};

    ghost Value = { ℕ };

    ghost view = { λ r. r.number };

    ghost invariant = { λ r. IsNumberOfReadings r.number };

    ghost inverse = { λ n. record { number = n } };
}

impl Readings {
    /// So many readings, if they are 1 to 32.
    pub fn new(number: u64) -> Option<Self>
        ensures valid { IsSome result ↔ IsNumberOfReadings number }
        ensures value { IfSome result (λ readings. readings ≡ number) }
    {
        if 1 <= number && number <= MOST_READINGS {
            Some(Readings {
                number: number as u8,
            })
        } else {
            None
        }
    }

    /// Their number.
    pub fn number(&self) -> u8
        ensures value { result ≡ self.now }
        ensures valid { IsNumberOfReadings result }
    {
        self.number
    }
}
