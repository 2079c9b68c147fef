//! The frames of a log. Each has 24 bytes and a page: the page's number, the size of the database if the frame ends a commit and 0 if not, the
//! log's salts, and a checksum over all that comes before it.
ghost use Rattle.std.specs.Prelude.{◌≡◌, ◌≢◌, ◌+◌, ◌<◌, ◌≤◌, ◌^◌, ◌↔◌, ℕ, IsTrue, IfSome, None, length};
ghost use Rattle.sqlite_wal.specs.Format.{part, commit_size, checksum, IsFrame};
ghost use Rattle.sqlite_wal.specs.Recovery.{Passes};
ghost use Rattle.wb_wal.specs.Look.{Has};
ghost use Rattle.wb_wal.specs.helpers.Stop.{StopsAt, IsBehind};

use crate::bytes::{Sum, number_at, sum_at};
use crate::header::{BIG, HEADER};
use sqlite_wal::checksum_of;

pub(crate) const FRAME_HEADER: usize = 24;

/// The first frame that doesn't pass the test, and the commit that it is of.
#[derive(Clone, Copy)]
pub(crate) struct Stop {
    /// Its number, from 0.
    pub(crate) frame: usize,
    /// Where it begins in the log.
    pub(crate) at: usize,
    /// The checksum before it.
    pub(crate) sum: Sum,
    /// The number of the first frame of its commit.
    pub(crate) first: usize,
    /// Where that begins in the log.
    pub(crate) first_at: usize,
    /// The checksum before that.
    pub(crate) first_sum: Sum,
}

/// The frame that begins at a byte of the log, if the log has all of it.
pub(crate) fn frame_from(log: &[u8], page: usize, at: usize) -> Option<&[u8]>
    requires { page ≤ 65536 }
    ensures some { IfSome result (λ frame. (at + (24 + page) ≤ length log.now) × (frame.now ≡ part log.now at (24 + page))) }
    ensures none { result ≡ None → length log.now < at + (24 + page) }
{
    log.get(at..)?.get(..FRAME_HEADER + page)
}

/// Whether a frame ends a commit.
pub(crate) fn commits(frame: &[u8]) -> bool
    requires { 24 ≤ length frame.now }
    ensures { IsTrue result ↔ (commit_size frame.now ≢ 0) }
{
    number_at(frame, 4) != 0
}

/// Whether a frame has the salts of this header.
pub(crate) fn has_salts(head: &[u8], frame: &[u8]) -> bool
    requires head { 32 ≤ length head.now }
    requires frame { 24 ≤ length frame.now }
    ensures { IsTrue result ↔ (part frame.now 8 8 ≡ part head.now 16 8) }
{
    frame[8..16] == head[16..24]
}

/// Whether a frame passes the test under this header, after this checksum.
fn passes(head: &[u8], before: Sum, frame: &[u8]) -> bool
    requires head { 32 ≤ length head.now }
    requires frame { 24 ≤ length frame.now }
    ensures { IsTrue result ↔ IsFrame head.now before frame.now }
{
    if !has_salts(head, frame) || number_at(frame, 0) == 0 {
        return false;
    }
    sum_after(head, before, &frame[..8], frame) == sum_at(frame, 16)
}

/// The checksum of a frame that begins with these eight bytes.
pub(crate) fn sum_after(head: &[u8], before: Sum, front: &[u8], frame: &[u8]) -> Sum
    requires head { 32 ≤ length head.now }
    requires frame { 24 ≤ length frame.now }
    ensures { result ≡ Rattle.wb_wal.specs.Look.sum_after head.now before front.now frame.now }
{
    let is_big = head[3] == BIG;
    checksum_of(
        is_big,
        checksum_of(is_big, before, front),
        &frame[FRAME_HEADER..],
    )
}

/// Where the frames stop to pass the test. None if each does.
pub(crate) fn first_stop(log: &[u8], page: usize) -> Option<Stop>
    requires head { 32 ≤ length log.now }
    requires page { page ≤ 65536 }
    ensures some { IfSome result (λ stop. StopsAt page log.now stop) }
    ensures none { result ≡ None → (i : ℕ) → Has page log.now i → Passes page log.now i }
{
    let head = &log[..HEADER];
    let sum = sum_at(head, 24);
    let mut stop = Stop {
        frame: 0,
        at: HEADER,
        sum,
        first: 0,
        first_at: HEADER,
        first_sum: sum,
    };
    while let Some(frame) = frame_from(log, page, stop.at) {
        if !passes(head, stop.sum, frame) {
            return Some(stop);
        }
        stop = behind(stop, frame);
    }
    None
}

/// The place behind a frame that passes.
fn behind(stop: Stop, frame: &[u8]) -> Stop
    requires frame { 24 ≤ length frame.now }
    requires number { stop.frame ≤ stop.at }
    requires room { stop.at + length frame.now < 2 ^ 64 }
    ensures { IsBehind stop frame.now result }
{
    let mut next = stop;
    next.frame += 1;
    next.at += frame.len();
    next.sum = sum_at(frame, 16);
    if commits(frame) {
        next.first = next.frame;
        next.first_at = next.at;
        next.first_sum = next.sum;
    }
    next
}
