//! Whether readings agree, told by the greatest of them, the least, and how many are lost.
ghost use Rattle.std.specs.Prelude.{◌≡◌, ℕ, ◌<◌, ◌∷◌, ◌++◌, [], List, IfOk, length, replicate, true};
ghost use Rattle.wb_window.specs.Stability.{are_near};

use crate::Reading;
use crate::candidates::{Candidates, Extreme};
use std::alloc::{AllocError, Global};

/// The candidates for the greatest and for the least of the loads held, and a count of the lost readings held.
#[derive(Drop)]
pub(crate) struct Queues {
    greatest: Candidates,
    least: Candidates,
    lost: usize,
}

impl Queues {
    ghost use Rattle.wb_window.specs.helpers.Queues.{queues_of};

    /// Of a window of so many readings, with none in it yet.
    pub(crate) fn new(alloc: Global, size: usize) -> Result<Self, AllocError>
        ensures { IfOk result (λ queues. queues ≡ queues_of size []) }
    {
        let greatest = Candidates::new(alloc, Extreme::Greatest, size)?;
        let least = Candidates::new(alloc, Extreme::Least, size)?;
        Ok(Queues {
            greatest,
            least,
            lost: 0,
        })
    }

    /// Takes a new reading.
    pub(crate) fn enter(&mut self, reading: Reading)
        requires { self.old.lost < usize.MAX }
        ensures { (size : ℕ) (readings : List Reading) → length readings < size
            → self.old ≡ queues_of size readings → self.new ≡ queues_of size (reading ∷ readings) }
    {
        match reading {
            Reading::Load(load) => {
                self.greatest.enter(load);
                self.least.enter(load);
            }
            Reading::Lost => self.lost += 1,
        }
    }

    /// Lets the oldest reading go.
    pub(crate) fn leave(&mut self, oldest: Reading)
        requires { oldest ≡ Reading.Lost → 0 < self.old.lost }
        ensures { (size : ℕ) (readings : List Reading)
            → self.old ≡ queues_of size (readings ++ oldest ∷ [])
            → self.new ≡ queues_of size readings }
    {
        match oldest {
            Reading::Load(load) => {
                self.greatest.leave(load);
                self.least.leave(load);
            }
            Reading::Lost => self.lost -= 1,
        }
    }

    /// Whether there are readings, and each is this load.
    pub(crate) fn are_all(&self, reading: Reading) -> bool
        ensures { (size : ℕ) (readings : List Reading) → self.now ≡ queues_of size readings
            → result ≡ true → readings ≡ replicate (length readings) reading }
    {
        match reading {
            Reading::Load(load) => {
                self.lost == 0 && self.greatest.is_first(load) && self.least.is_first(load)
            }
            Reading::Lost => false,
        }
    }

    /// Whether all readings are loads, and any two of them differ by at most the band.
    pub(crate) fn agree(&self, band: u32) -> bool
        ensures { (size : ℕ) (readings : List Reading) → self.now ≡ queues_of size readings
            → result ≡ are_near band readings }
    {
        if self.lost > 0 {
            return false;
        }
        let Some(greatest) = self.greatest.first() else {
            return true;
        };
        let Some(least) = self.least.first() else {
            return true;
        };
        i64::from(greatest) - i64::from(least) <= i64::from(band)
    }
}
