//! What every window of readings does.
ghost use Rattle.std.specs.Prelude.{◌≡◌, ◌∷◌, slice_get, take};

use crate::Reading;

/// A window of the last readings, seen as what it holds: its size, the stability band, and the list of its readings,
/// the newest first. No call takes memory.
pub trait Window {
    ghost use Rattle.wb_window.specs.Held.{Held};
    ghost use Rattle.wb_window.specs.Stability.{is_stable};

    ghost held: { Self → Held };

    /// N, the readings that it keeps.
    fn size(&self) -> usize
        ensures { result ≡ (held self.now).size };

    /// The stability band, in tenths of the verification scale interval.
    fn band(&self) -> u32
        ensures { result ≡ (held self.now).band };

    /// Takes a reading, and lets the oldest go where it is full.
    fn read(&mut self, reading: Reading)
        ensures { let before = held self.old in
            held self.new
            ≡ record before { readings = take before.size (reading ∷ before.readings) } };

    /// Whether it has N readings, all are loads, and any two of them differ by at most the band.
    fn stable(&self) -> bool
        ensures { let now = held self.now in result ≡ is_stable now.size now.band now.readings };

    /// The newest reading.
    fn last(&self) -> Option<Reading>
        ensures { result ≡ slice_get (held self.now).readings 0 };
}
