//! The lines that wait for a client: the newest, and the rest of one of which it took a part.
ghost use Rattle.std.specs.Prelude.{◌≡◌, ◌≤◌, length};
ghost use Rattle.wb_converter.specs.Outbox.{aged, broken_off, first_of, offered, taken};

use arrayvec::ArrayVec;
use std::marker::Model;

/// The most bytes of a line for a client, its LF among them.
pub const LINE_ROOM: usize = 12;

/// What ends a line of which a client took a part, once its rest is not the newest any more: with it the line is no number.
const BROKEN: &[u8] = b"?\n";

/// The lines that wait for a client, seen as the rest of the line that it has begun and the newest line.
#[derive(Drop)]
pub struct Outbox {
    rest: ArrayVec<u8, LINE_ROOM>,
    newest: ArrayVec<u8, LINE_ROOM>,
}

impl Model for Outbox {
    ghost use Rattle.wb_converter.specs.Outbox.{Waiting};

    ghost Value = { Waiting };

    ghost view = { λ o. record { rest = o.rest.items; newest = o.newest.items } };
}

impl Outbox {
    ghost use Rattle.wb_converter.specs.Outbox.{none as nothing};

    /// With nothing that waits.
    pub fn new() -> Self
        ensures { result ≡ nothing }
    {
        Outbox {
            rest: ArrayVec::new(),
            newest: ArrayVec::new(),
        }
    }

    /// Takes a line, which is the newest now. The one that waited is dropped; of one that the client has begun the rest is broken off.
    pub fn offer(&mut self, line: &[u8])
        requires { length line.now ≤ 12 }
        ensures { self.new ≡ offered line.now self.old }
    {
        self.break_off();
        self.newest = copy_of(line);
    }

    /// Drops the newest line, which is too old, and breaks off one that the client has begun.
    pub fn grow_old(&mut self)
        ensures { self.new ≡ aged self.old }
    {
        self.break_off();
        self.newest = ArrayVec::new();
    }

    /// The bytes that the client is handed next: the rest of the line that it has begun, or the newest line.
    pub fn next(&self) -> &[u8]
        ensures next { result.now ≡ first_of self.now }
        ensures few { length result.now ≤ 12 }
    {
        let rest = self.rest.as_slice();
        if rest.is_empty() {
            self.newest.as_slice()
        } else {
            rest
        }
    }

    /// Takes away so many of these bytes, which the client took.
    pub fn took(&mut self, count: usize)
        requires { count ≤ length (first_of self.old) }
        ensures { self.new ≡ taken count self.old }
    {
        if count == 0 {
            return;
        }
        if self.rest.is_empty() {
            self.rest = copy_of(&self.newest.as_slice()[count..]);
            self.newest.clear();
        } else {
            self.rest = copy_of(&self.rest.as_slice()[count..]);
        }
    }

    fn break_off(&mut self)
        ensures { self.new ≡ broken_off self.old }
    {
        if !self.rest.is_empty() {
            self.rest = copy_of(BROKEN);
        }
    }
}

fn copy_of(bytes: &[u8]) -> ArrayVec<u8, LINE_ROOM>
    requires { length bytes.now ≤ 12 }
    ensures { result.items ≡ bytes.now }
{
    let mut copy = ArrayVec::new();
    match copy.try_extend_from_slice(bytes) {
        Ok(()) => copy,
        Err(_) => unreachable!(),
    }
}
