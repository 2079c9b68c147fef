//! What is made of the last readings of a load cell before their load is told.
ghost use Rattle.std.specs.Prelude.{◌≡◌};
ghost use Rattle.wb_calibration.specs.Filter.{readings_of};
ghost use Rattle.wb_calibration.specs.Readings.{IsNumberOfReadings};

use crate::readings::Readings;

/// What is made of so many last readings.
#[derive(Clone, Copy, Debug, PartialEq, Eq)]
pub enum Filter {
    /// The one in the middle, in the order of their counts.
    Median(Readings),
    /// Their mean.
    Mean(Readings),
}

impl Filter {
    /// Of how many readings.
    pub fn readings(&self) -> u8
        ensures value { result ≡ readings_of self.now }
        ensures valid { IsNumberOfReadings result }
    {
        match self {
            Filter::Median(readings) | Filter::Mean(readings) => readings.number(),
        }
    }
}
