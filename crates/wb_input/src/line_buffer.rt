//! A line that comes in pieces.
ghost use Rattle.std.specs.List.{after_first, position};
ghost use Rattle.std.specs.Prelude.{◌≡◌, ◌==◌, IfSome, is_some, not};
ghost use Rattle.std.specs.Str.Lines.{strip_carriage_return as strip};
ghost use Rattle.wb_input.specs.PartialLine.{fresh, pushed, spoiled, taken_in};

use crate::cutting::{split_at_first, without_carriage_return};
use arrayvec::ArrayVec;
use std::marker::Model;

/// The beginning of a line whose LF hasn't come. It keeps at most `N` bytes, a CR among them.
#[derive(Drop)]
pub struct LineBuffer<const N: usize> {
    kept: ArrayVec<u8, N>,
    is_too_long: bool,
}

impl<const N: usize> Model for LineBuffer<N> {
    ghost use Rattle.wb_input.specs.PartialLine.{PartialLine};

    ghost Value = { PartialLine };

    ghost view = { λ l. record { kept = l.kept.items; too_long = l.is_too_long } };
}

impl<const N: usize> LineBuffer<N> {
    /// Creates a buffer in which no line has begun.
    pub fn new() -> Self
        ensures { result ≡ fresh }
    {
        LineBuffer {
            kept: ArrayVec::new(),
            is_too_long: false,
        }
    }

    /// Adds `bytes` up to the first LF to the line. Returns the bytes after the LF, or `None` if there is no LF.
    pub fn take<'a>(&mut self, bytes: &'a [u8]) -> Option<&'a [u8]>
        ensures taken { self.new ≡ taken_in N bytes.now self.old }
        ensures found { is_some result ≡ is_some (position (λ b. b == 10) bytes.now) }
        ensures after { IfSome result (λ after. after.now ≡ after_first (λ b. b == 10) bytes.now) }
    {
        match split_at_first(bytes, b'\n') {
            Some((before, after)) => {
                self.push(before);
                Some(after)
            }
            None => {
                self.push(bytes);
                None
            }
        }
    }

    /// Returns the line without a CR at its end, or `None` if it was too long or is spoiled.
    pub fn line(&self) -> Option<&[u8]>
        ensures kept { is_some result ≡ not self.now.too_long }
        ensures value { IfSome result (λ line. line.now ≡ strip self.now.kept) }
    {
        if self.is_too_long {
            return None;
        }
        Some(without_carriage_return(self.kept.as_slice()))
    }

    /// Begins the next line.
    pub fn begin(&mut self)
        ensures { self.new ≡ fresh }
    {
        self.kept.clear();
        self.is_too_long = false;
    }

    /// Makes the line one of which nothing is used, whatever of it is still to come.
    pub fn spoil(&mut self)
        ensures { self.new ≡ spoiled self.old }
    {
        self.is_too_long = true;
    }

    fn push(&mut self, bytes: &[u8])
        ensures { self.new ≡ pushed N bytes.now self.old }
    {
        if self.kept.try_extend_from_slice(bytes).is_err() {
            self.is_too_long = true;
        }
    }
}
