//! A window in place: making it takes no memory either.
ghost use Rattle.std.specs.Prelude.{◌≡◌, ◌≤◌, []};
ghost use Rattle.wb_window.specs.Stability.{are_near};

use std::marker::Model;
use wb_window::{Reading, Window};

/// The readings that the largest window keeps.
const LARGEST_WINDOW: usize = 64;

/// A window that keeps its readings in the value itself, the newest first, and looks at each of them to tell whether they are
/// stable.
#[derive(Drop)]
pub(crate) struct PlacedWindow {
    readings: [Reading; LARGEST_WINDOW],
    /// How many of the places hold a reading.
    count: usize,
    size: usize,
    band: u32,
}

impl Model for PlacedWindow {
    ghost use Rattle.std.specs.Prelude.{◌≤◌, take};
    ghost use Rattle.wb_window.specs.Held.{Held};

    ghost Value = { Held };

    ghost view = { λ w. record { size = w.size; band = w.band; readings = take w.count w.readings } };

    ghost invariant = { λ w. (w.count ≤ w.size) × (w.size ≤ 64) };
}

impl PlacedWindow {
    /// A window of so many readings with none in it yet, and a stability band in tenths of the verification scale
    /// interval.
    pub(crate) fn new(size: usize, band: u32) -> Self
        requires { size ≤ 64 }
        ensures { result ≡ record { size = size; band = band; readings = [] } }
    {
        PlacedWindow {
            readings: [Reading::Lost; LARGEST_WINDOW],
            count: 0,
            size,
            band,
        }
    }
}

impl Window for PlacedWindow {
    ghost held = { λ w. w };

    fn size(&self) -> usize {
        self.size
    }

    fn band(&self) -> u32 {
        self.band
    }

    fn read(&mut self, reading: Reading) {
        if self.size == 0 {
            return;
        }
        let older = self.count.min(self.size - 1);
        self.readings.copy_within(0..older, 1);
        self.readings[0] = reading;
        self.count = older + 1;
    }

    fn stable(&self) -> bool {
        self.count >= self.size && agree(&self.readings[..self.count], self.band)
    }

    fn last(&self) -> Option<Reading> {
        self.readings[..self.count].first().copied()
    }
}

/// Whether all are loads, and any two of them differ by at most the band.
fn agree(readings: &[Reading], band: u32) -> bool
    ensures { result ≡ are_near band readings.now }
{
    let mut lowest = i32::MAX;
    let mut highest = i32::MIN;
    for i in 0..readings.len() {
        match readings[i] {
            Reading::Load(load) => {
                lowest = lowest.min(load);
                highest = highest.max(load);
            }
            Reading::Lost => return false,
        }
    }
    i64::from(highest) - i64::from(lowest) <= i64::from(band)
}
