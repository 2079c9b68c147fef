//! The loads that can become the greatest, or the least, of the readings held.
ghost use Rattle.circular_buffer.specs.Buffer.{last_item};
ghost use Rattle.std.specs.Option.{option_eq};
ghost use Rattle.std.specs.Ordering.{int_eq};
ghost use Rattle.std.specs.Prelude.{◌≡◌, ℕ, ◌<◌, ◌∷◌, ◌++◌, [], List, IfOk, Some, length, slice_get};

use circular_buffer::HeapCircularBuffer;
use std::alloc::{AllocError, Global};

/// Which of the loads is sought.
#[derive(Clone, Copy)]
pub(crate) enum Extreme {
    Greatest,
    Least,
}

impl Extreme {
    ghost use Rattle.wb_window.specs.helpers.Candidates.{beyond};

    /// Whether a load lies strictly beyond another one.
    fn is_beyond(self, load: i32, other: i32) -> bool
        ensures { result ≡ beyond self load other }
    {
        match self {
            Extreme::Greatest => load > other,
            Extreme::Least => load < other,
        }
    }
}

/// A queue of the loads held that no newer load lies beyond, the oldest first, so that the first is the extreme one.
#[derive(Drop)]
pub(crate) struct Candidates {
    extreme: Extreme,
    loads: HeapCircularBuffer<i32>,
}

impl Candidates {
    ghost use Rattle.wb_window.specs.declared.reading.Reading.{Reading};
    ghost use Rattle.wb_window.specs.declared.reading.Reading.TheVariants.{Load};
    ghost use Rattle.wb_window.specs.helpers.Candidates.{beyond_last, queue_of};

    /// A queue of a window of so many readings, with none in it yet.
    pub(crate) fn new(alloc: Global, extreme: Extreme, size: usize) -> Result<Self, AllocError>
        ensures { IfOk result (λ queue. queue ≡ queue_of extreme size []) }
    {
        let loads = HeapCircularBuffer::with_capacity(alloc, size)?;
        Ok(Candidates { extreme, loads })
    }

    /// The greatest load, or the least.
    pub(crate) fn first(&self) -> Option<i32>
        ensures { result ≡ slice_get self.now.loads.items 0 }
    {
        self.loads.front().copied()
    }

    /// Whether this is the greatest load, or the least.
    pub(crate) fn is_first(&self, load: i32) -> bool
        ensures { result ≡ option_eq int_eq (slice_get self.now.loads.items 0) (Some load) }
    {
        self.first() == Some(load)
    }

    /// Takes a new load: it drops from the back those that it lies beyond, and is put last.
    pub(crate) fn enter(&mut self, load: i32)
        ensures { (extreme : Extreme) (size : ℕ) (readings : List Reading) → length readings < size
            → self.old ≡ queue_of extreme size readings
            → self.new ≡ queue_of extreme size (Load load ∷ readings) }
    {
        while self.is_beyond_last(load) {
            self.loads.pop_back();
        }
        self.loads.push_back(load);
    }

    /// Lets the oldest load go: it is dropped from the front where it equals the first.
    pub(crate) fn leave(&mut self, load: i32)
        ensures { (extreme : Extreme) (size : ℕ) (readings : List Reading)
            → self.old ≡ queue_of extreme size (readings ++ Load load ∷ [])
            → self.new ≡ queue_of extreme size readings }
    {
        if self.is_first(load) {
            self.loads.pop_front();
        }
    }

    /// Whether there is a last load, and this one lies beyond it.
    fn is_beyond_last(&self, load: i32) -> bool
        ensures { result ≡ beyond_last self.now.extreme load (last_item self.now.loads.items) }
    {
        match self.loads.back() {
            Some(last) => self.extreme.is_beyond(load, *last),
            None => false,
        }
    }
}
