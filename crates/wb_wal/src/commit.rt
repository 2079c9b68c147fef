//! A commit of one sync, of which a power cut may have left a part.
//!
//! Its first frame has a number above those of all pages, and begins with a count: of the zeros in its pages, and of how far its numbers and its
//! size lie below that number. It is written over zeros, so that what is lost of it is 0, which makes what is found more, or the count less.
ghost use Rattle.std.specs.Prelude.{◌≡◌, ◌≤◌, ◌+◌, ◌-◌, ◌↔◌, ◌<◌, IsTrue, length};
ghost use Rattle.wb_wal.specs.Look.{IsSealed, lack};
ghost use Rattle.wb_wal.specs.helpers.Commit.{EndsLost, GoesOn, HasBegun};

use crate::bytes::{Sum, are_right_or_lost, first_number, number_at, zeros_in};
use crate::frames::{FRAME_HEADER, sum_after};

/// The number of a frame that counts.
pub(crate) const COUNT: u32 = 0xff00_0000;

/// What was found of a commit so far.
#[derive(Clone, Copy)]
pub(crate) struct Commit {
    /// What its first frame counts beyond what was found; none if more was found.
    left: Option<u64>,
    /// The checksum that the newest frame had.
    sum: Sum,
    /// Whether each salt and checksum so far is right, or lost bytes.
    is_right: bool,
}

impl Commit {
    /// A commit that begins with this frame, after this checksum.
    pub(crate) fn begin(head: &[u8], before: Sum, frame: &[u8]) -> Self
        requires head { 32 ≤ length head.now }
        requires frame { 32 ≤ length frame.now }
        ensures { HasBegun head.now before frame.now result }
    {
        let page = &frame[FRAME_HEADER..];
        let front = [255, 0, 0, 0, frame[4], frame[5], frame[6], frame[7]];
        let sum = sum_after(head, before, &front, frame);
        Commit {
            left: less(Some(first_number(page)), zeros_in(&page[8..])),
            sum,
            is_right: is_sealed(head, sum, frame),
        }
    }

    /// The same with its next frame.
    pub(crate) fn go_on(self, head: &[u8], frame: &[u8]) -> Self
        requires head { 32 ≤ length head.now }
        requires frame { 24 ≤ length frame.now }
        requires room { length frame.now ≤ 65560 }
        ensures { GoesOn head.now self frame.now result }
    {
        let more = zeros_in(&frame[FRAME_HEADER..]) + lack(number_at(frame, 0));
        let sum = sum_after(head, self.sum, &frame[..8], frame);
        Commit {
            left: less(self.left, more),
            sum,
            is_right: self.is_right && is_sealed(head, sum, frame),
        }
    }

    /// Whether it lost bytes and nothing else, if it ends with this frame.
    pub(crate) fn ends_lost(&self, frame: &[u8]) -> bool
        requires { 24 ≤ length frame.now }
        ensures { IsTrue result ↔ EndsLost self.now frame.now }
    {
        match less(self.left, lack(number_at(frame, 4))) {
            None => true,
            Some(left) => left == 0 && self.is_right,
        }
    }
}

/// What is left of a count after so many more were found.
fn less(left: Option<u64>, more: u64) -> Option<u64>
    ensures { result ≡ Rattle.wb_wal.specs.helpers.Commit.left_after left more }
{
    left?.checked_sub(more)
}

/// How far a number lies below the one that counts.
fn lack(number: u32) -> u64
    ensures { result ≡ Rattle.wb_wal.specs.Look.lack number }
{
    COUNT.saturating_sub(number) as u64
}

/// Whether the salts and the checksum of a frame are right, or lost bytes.
fn is_sealed(head: &[u8], sum: Sum, frame: &[u8]) -> bool
    requires head { 32 ≤ length head.now }
    requires frame { 24 ≤ length frame.now }
    ensures { IsTrue result ↔ IsSealed head.now sum frame.now }
{
    let (first, second) = sum;
    if !are_right_or_lost(&frame[8..16], &head[16..24]) {
        return false;
    }
    if !are_right_or_lost(&frame[16..20], &first.to_be_bytes()) {
        return false;
    }
    are_right_or_lost(&frame[20..24], &second.to_be_bytes())
}
