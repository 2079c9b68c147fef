//! Outputs that are kept in memory.
ghost use Rattle.std.specs.Prelude.{◌≡◌, []};
ghost use Rattle.wb_station.specs.KeptOutputs.{kept_of};

use crate::outputs::{Outputs, Refused};
use std::alloc::Global;

/// An output with the place of its event, counted from 1.
#[derive(Debug, Drop)]
pub struct Placed {
    pub at: u64,
    pub bytes: Vec<u8>,
}

/// The outputs taken, the oldest first. It refuses for want of memory.
#[derive(Debug, Drop)]
pub struct OutputList {
    alloc: Global,
    outputs: Vec<Placed>,
    refusals: u64,
}

impl Outputs for OutputList {
    ghost taken = { λ s. kept_of s.outputs.items };

    ghost refusals = { λ s. s.refusals };

    fn put(&mut self, at: u64, bytes: &[u8]) -> Result<(), Refused> {
        match Vec::from_slice(self.alloc, bytes) {
            Ok(copy) => match self.outputs.push(Placed { at, bytes: copy }) {
                Ok(()) => Ok(()),
                Err(_) => {
                    self.refusals += 1;
                    Err(Refused)
                }
            },
            Err(_) => {
                self.refusals += 1;
                Err(Refused)
            }
        }
    }
}

impl OutputList {
    /// No output yet.
    pub fn new(alloc: Global) -> Self
        ensures taken { kept_of result.outputs.items ≡ [] }
        ensures refusals { result.refusals ≡ 0 }
    {
        OutputList {
            alloc,
            outputs: Vec::new(alloc),
            refusals: 0,
        }
    }

    /// The outputs taken, the oldest first.
    pub fn outputs(&self) -> &[Placed]
        ensures { result.now ≡ self.now.outputs.items }
    {
        self.outputs.as_slice()
    }
}
