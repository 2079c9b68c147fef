//! A window in a ring, plain and short; the program uses the one with two queues.
ghost use Rattle.std.specs.Prelude.{◌≡◌, IfOk, []};
ghost use Rattle.wb_window.specs.Stability.{are_near};

use crate::{Reading, Window};
use circular_buffer::HeapCircularBuffer;
use std::alloc::{AllocError, Global};
use std::marker::Model;

/// A window that keeps its readings in a ring, and looks at each of them to tell whether they are stable.
#[derive(Drop)]
pub struct RingWindow {
    ring: HeapCircularBuffer<Reading>,
    band: u32,
}

impl Model for RingWindow {
    ghost use Rattle.wb_window.specs.Held.{Held};

    ghost Value = { Held };

    ghost view = { λ w. record { size = w.ring.capacity; band = w.band; readings = w.ring.items } };
}

impl RingWindow {
    /// A window of so many readings with none in it yet, and a stability band in tenths of the verification scale
    /// interval. Refuses for want of memory alone.
    pub fn new(alloc: Global, size: usize, band: u32) -> Result<Self, AllocError>
        ensures { IfOk result (λ w. w ≡ record { size = size; band = band; readings = [] }) }
    {
        let ring = HeapCircularBuffer::with_capacity(alloc, size)?;
        Ok(RingWindow { ring, band })
    }
}

impl Window for RingWindow {
    ghost held = { λ w. w };

    fn size(&self) -> usize {
        self.ring.capacity()
    }

    fn band(&self) -> u32 {
        self.band
    }

    fn read(&mut self, reading: Reading) {
        self.ring.push_front(reading);
    }

    fn stable(&self) -> bool {
        self.ring.len() >= self.ring.capacity() && agree(&self.ring, self.band)
    }

    fn last(&self) -> Option<Reading> {
        self.ring.front().copied()
    }
}

/// Whether all are loads, and any two differ by at most the band.
fn agree(ring: &HeapCircularBuffer<Reading>, band: u32) -> bool
    ensures { result ≡ are_near band ring.now.items }
{
    let mut lowest = i32::MAX;
    let mut highest = i32::MIN;
    for i in 0..ring.len() {
        match ring.get(i).copied() {
            Some(Reading::Load(load)) => {
                lowest = lowest.min(load);
                highest = highest.max(load);
            }
            Some(Reading::Lost) => return false,
            None => return false,
        }
    }
    i64::from(highest) - i64::from(lowest) <= i64::from(band)
}
