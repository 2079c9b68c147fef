//! Limits of indication and of the zero.
ghost use Rattle.std.specs.Prelude.{◌≡◌, ◌*ℤ◌, pos};
ghost use Rattle.wb_instrument.specs.Limits.{is_above_range, is_below_range, readings_a_step, farthest_zero};
ghost use Rattle.wb_instrument.specs.Setup.{IsSetup, intervals_in_max};

use crate::Instrument;

/// Min in intervals, in class III with e of 5 g or more (OIML R 76-1:2006, 3.2).
pub const MIN_INTERVALS: i32 = 20;

/// The intervals above Max that are still indicated (OIML R 76-1:2006, 4.2.3).
const OVER_RANGE_INTERVALS: i32 = 9;

/// The least gross that is indicated, in intervals.
const LEAST_INTERVALS: i32 = -20;

/// Steps of zero tracking that may correct half an interval a second.
const STEPS_A_SECOND: u32 = 5;

impl Instrument {
    /// n, the intervals of e in Max.
    pub fn intervals(&self) -> u32
        ensures value { result ≡ intervals_in_max self.now }
        ensures setup { IsSetup self.now }
    {
        self.max_kg() / self.interval_kg()
    }

    /// So many intervals in kilograms. A gross or net that is indicated fits 16 bits, and so does a preset tare.
    pub fn kilograms(&self, whole: i16) -> i32
        ensures { result ≡ pos self.now.interval_kg *ℤ whole }
    {
        self.interval_kg() as i32 * i32::from(whole)
    }

    /// Whether so many intervals are above Max + 9 e.
    pub fn is_over(&self, gross: i32) -> bool
        ensures { result ≡ is_above_range self.now gross }
    {
        self.intervals() as i32 + OVER_RANGE_INTERVALS < gross
    }

    /// Whether so many intervals are below -20 e.
    pub fn is_under(&self, gross: i32) -> bool
        ensures { result ≡ is_below_range gross }
    {
        gross < LEAST_INTERVALS
    }

    /// How far from the calibration zero the zero may lie, in tenths of e: n/5, rounded down.
    pub fn zero_limit(&self) -> i32
        ensures value { result ≡ pos (farthest_zero self.now) }
        ensures setup { IsSetup self.now }
    {
        (self.intervals() / 5) as i32
    }

    /// K: of so many readings in a row at most one makes a step of zero tracking.
    pub fn tracking_gap(&self) -> u32
        ensures value { result ≡ readings_a_step self.now }
        ensures setup { IsSetup self.now }
    {
        self.pace().div_ceil(STEPS_A_SECOND)
    }
}
