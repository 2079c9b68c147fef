//! A window with two queues: the one that the program uses.
ghost use Rattle.std.specs.Prelude.{◌≡◌, IfOk, [], replicate, true};

use crate::queues::Queues;
use crate::{Reading, Window};
use circular_buffer::HeapCircularBuffer;
use std::alloc::{AllocError, Global};
use std::marker::Model;

/// A window that keeps its readings in a ring, and beside it what tells whether they are stable: a queue of candidates
/// for the greatest load, one for the least, and a count of the lost readings.
#[derive(Drop)]
pub struct DequeWindow {
    ring: HeapCircularBuffer<Reading>,
    queues: Queues,
    band: u32,
}

impl Model for DequeWindow {
    ghost use Rattle.wb_window.specs.Held.{Held};

    ghost Value = { Held };

    ghost view = { λ w. record { size = w.ring.capacity; band = w.band; readings = w.ring.items } };

    ghost use Rattle.std.specs.Prelude.{◌≡◌};
    ghost use Rattle.wb_window.specs.helpers.Queues.{queues_of};

    ghost invariant = { λ w. w.queues ≡ queues_of w.ring.capacity w.ring.items };
}

impl DequeWindow {
    /// A window of so many readings with none in it yet, and a stability band in tenths of the verification scale
    /// interval. Refuses for want of memory alone.
    pub fn new(alloc: Global, size: usize, band: u32) -> Result<Self, AllocError>
        ensures { IfOk result (λ w. w ≡ record { size = size; band = band; readings = [] }) }
    {
        let ring = HeapCircularBuffer::with_capacity(alloc, size)?;
        let queues = Queues::new(alloc, size)?;
        Ok(DequeWindow { ring, queues, band })
    }

    /// Whether it is full, and each reading held is this load. One more of it changes nothing.
    fn stands_still_at(&self, reading: Reading) -> bool
        ensures { let now = self.now in result ≡ true
            → now.readings ≡ replicate now.size reading }
    {
        self.ring.len() >= self.ring.capacity() && self.queues.are_all(reading)
    }
}

impl Window for DequeWindow {
    ghost held = { λ w. w };

    fn size(&self) -> usize {
        self.ring.capacity()
    }

    fn band(&self) -> u32 {
        self.band
    }

    fn read(&mut self, reading: Reading) {
        if self.ring.capacity() == 0 || self.stands_still_at(reading) {
            return;
        }
        if let Some(oldest) = self.ring.push_front(reading) {
            self.queues.leave(oldest);
        }
        self.queues.enter(reading);
    }

    fn stable(&self) -> bool {
        self.ring.len() >= self.ring.capacity() && self.queues.agree(self.band)
    }

    fn last(&self) -> Option<Reading> {
        self.ring.front().copied()
    }
}
