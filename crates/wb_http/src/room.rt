//! The room in which a response is built.
ghost use Rattle.std.specs.Prelude.{◌≡◌, IfOk, []};

use std::alloc::{AllocError, Global};
use std::marker::Model;

/// The bytes that there is room for from the start. Every response but one with an export fits.
pub(crate) const ROOM: usize = 2_048;

/// The room in which a response is built, seen as the bytes that it holds.
#[derive(Drop)]
pub struct ResponseRoom {
    pub(crate) bytes: Vec<u8>,
}

impl Model for ResponseRoom {
    ghost use Rattle.std.specs.Prelude.{◌≤◌, ℕ, List, vec_capacity};
    ghost use Rattle.wb_http.specs.declared.room.TheConstants.{ROOM};

    ghost Value = { List ℕ };

    ghost view = { λ r. r.bytes.items };

    ghost invariant = { λ r. ROOM ≤ vec_capacity r.bytes };
}

impl ResponseRoom {
    /// An empty room for 2,048 bytes. Refuses for want of memory alone.
    pub fn new(alloc: Global) -> Result<Self, AllocError>
        ensures { IfOk result (λ r. r ≡ []) }
    {
        Ok(ResponseRoom {
            bytes: Vec::with_capacity(alloc, ROOM)?,
        })
    }

    /// The response, or nothing after a refusal.
    pub fn as_slice(&self) -> &[u8]
        ensures { result.now ≡ self.now }
    {
        self.bytes.as_slice()
    }
}
