//! The look: four rules, in this order.
ghost use Rattle.std.specs.Prelude.{◌≡◌, ◌↔◌, ◌+◌, ◌≤◌, ◌<◌, IsTrue, IfErr, OnOk, length};
ghost use Rattle.sqlite_wal.specs.Recovery.{frame, frame_at};
ghost use Rattle.wb_wal.specs.Look.{IsFormer, IsOfLastCommit, IsRefused, IsShut, IsTorn, MayHaveLost, MayStop, NeedsFile, NoneCounts, NoneSigned, page_size};
ghost use Rattle.wb_wal.specs.helpers.Stop.{StopsAt};

use crate::bytes::number_at;
use crate::commit::{COUNT, Commit};
use crate::frames::{FRAME_HEADER, Stop, commits, first_stop, frame_from, has_salts};
use crate::header::{HEADER, is_begun, is_signed, page_size};
use std::fmt;
use std::fmt::Display;

/// The least bytes of a log that has a frame.
const LEAST: usize = 56;

/// The least bytes of zeros behind a commit of one sync.
const BLANK: usize = 0x2_0000;

/// Why a log is refused.
#[derive(Clone, Copy, Debug, PartialEq, Eq)]
pub enum Refusal {
    /// The file is missing or shorter than a page, and the log has what the file must have had.
    File,
    /// The log's header is damaged.
    Header,
    /// The frame at this byte is damaged.
    Frame(usize),
}

impl Display for Refusal {
    fn fmt<W: fmt::Write>(&self, f: &mut fmt::Formatter<W>) -> fmt::Result {
        match self {
            Refusal::File => f.write_str("the journal beside it is missing or was cut"),
            Refusal::Header => f.write_str("its header is damaged, in the first 32 bytes"),
            Refusal::Frame(place) => {
                f.write_str("it is damaged, in the frame from byte ")?;
                place.fmt(f)
            }
        }
    }
}

/// Refuses the log of a file with `file` bytes, unless a power cut can have left both so. A missing file has 0 bytes.
pub fn look(file: u64, log: &[u8]) -> Result<(), Refusal>
    ensures taken { OnOk result ((refusal : Refusal) → ¬ IsRefused file log.now refusal) }
    ensures refused { IfErr result (λ refusal. IsRefused file log.now refusal) }
{
    if file == 0 {
        return if needs_file(log) {
            Err(Refusal::File)
        } else {
            Ok(())
        };
    }
    if log.len() < LEAST {
        return Ok(());
    }
    if log[0] == 0 {
        return Ok(());
    }
    let head = &log[..HEADER];
    if !is_signed(head) {
        return Err(Refusal::Header);
    }
    let Some(size) = page_size(head) else {
        return Err(Refusal::Header);
    };
    let page = size.bytes();
    if file < page as u64 {
        return Err(Refusal::File);
    }
    match first_stop(log, page) {
        Some(stop) if !may_stop(log, page, &stop) => Err(Refusal::Frame(stop.at)),
        _ => Ok(()),
    }
}

/// Returns true if a log has what a file must have had: a frame, or the header of a log that had a checkpoint.
fn needs_file(log: &[u8]) -> bool
    ensures { IsTrue result ↔ NeedsFile log.now }
{
    if log.len() < HEADER {
        return false;
    }
    let head = &log[..HEADER];
    log.len() >= LEAST || (is_signed(head) && !is_begun(head))
}

/// Returns true if a power cut or a former log may have left the frame at a stop. Then no commit of one sync begins behind it. And its gate is shut, or it
/// is of a former log or of the commit that was being written.
fn may_stop(log: &[u8], page: usize, stop: &Stop) -> bool
    requires head { 32 ≤ length log.now }
    requires page { (8 ≤ page) × (page ≤ 65536) }
    requires stop { StopsAt page log.now stop.now }
    ensures { IsTrue result ↔ MayStop page log.now (stop.now.frame) }
{
    if !none_counts(log, page, stop) {
        return false;
    }
    is_shut(log, page, stop) || is_former(log, page, stop) || is_torn(log, page, stop)
}

/// Returns the frame at a stop.
fn frame_at<'a>(log: &'a [u8], page: usize, stop: &Stop) -> &'a [u8]
    requires stop { StopsAt page log.now stop.now }
    ensures value { result.now ≡ frame page log.now (stop.now.frame) }
    ensures long { length result.now ≡ 24 + page }
{
    &log[stop.at..stop.at + (FRAME_HEADER + page)]
}

/// Returns true if a stop is the first frame of its commit, whose gate is shut.
fn is_shut(log: &[u8], page: usize, stop: &Stop) -> bool
    requires head { 32 ≤ length log.now }
    requires page { (8 ≤ page) × (page ≤ 65536) }
    requires stop { StopsAt page log.now stop.now }
    ensures { IsTrue result ↔ IsShut page log.now (stop.now.frame) }
{
    let head = &log[..HEADER];
    let gate = frame_at(log, page, stop)[8];
    if stop.first != stop.frame || gate == head[16] {
        return false;
    }
    gate == 0
}

/// Returns true if the frame at a stop is one of a log before this one.
fn is_former(log: &[u8], page: usize, stop: &Stop) -> bool
    requires head { 32 ≤ length log.now }
    requires page { (8 ≤ page) × (page ≤ 65536) }
    requires stop { StopsAt page log.now stop.now }
    ensures { IsTrue result ↔ IsFormer page log.now (stop.now.frame) }
{
    let head = &log[..HEADER];
    let frame = frame_at(log, page, stop);
    if number_at(frame, 8) == number_at(head, 16) {
        return false;
    }
    if number_at(frame, 12) == number_at(head, 20) {
        return false;
    }
    none_signed(log, page, stop)
}

/// Returns true if a stop is in the last commit, which was being written.
fn is_torn(log: &[u8], page: usize, stop: &Stop) -> bool
    requires head { 32 ≤ length log.now }
    requires page { (8 ≤ page) × (page ≤ 65536) }
    requires stop { StopsAt page log.now stop.now }
    ensures { IsTrue result ↔ IsTorn page log.now (stop.now.frame) }
{
    let head = &log[..HEADER];
    let gate = frame_at(log, page, stop)[8];
    if gate != 0 && gate != head[16] {
        return false;
    }
    is_of_last_commit(log, page, stop) && may_have_lost(log, page, stop)
}

/// Returns true if no frame from a stop on has the log's salts.
fn none_signed(log: &[u8], page: usize, stop: &Stop) -> bool
    requires head { 32 ≤ length log.now }
    requires page { page ≤ 65536 }
    requires stop { StopsAt page log.now stop.now }
    ensures { IsTrue result ↔ NoneSigned page log.now (stop.now.frame) }
{
    let head = &log[..HEADER];
    let mut at = stop.at;
    while let Some(frame) = frame_from(log, page, at) {
        if has_salts(head, frame) {
            return false;
        }
        at += frame.len();
    }
    true
}

/// Returns true if no frame behind a stop has the log's salts and counts.
fn none_counts(log: &[u8], page: usize, stop: &Stop) -> bool
    requires head { 32 ≤ length log.now }
    requires page { page ≤ 65536 }
    requires stop { StopsAt page log.now stop.now }
    ensures { IsTrue result ↔ NoneCounts page log.now (stop.now.frame) }
{
    let head = &log[..HEADER];
    let mut at = stop.at + (FRAME_HEADER + page);
    while let Some(frame) = frame_from(log, page, at) {
        if has_salts(head, frame) && number_at(frame, 0) == COUNT {
            return false;
        }
        at += frame.len();
    }
    true
}

/// Returns true if no frame from a stop on with the log's salts follows one that ends a commit, before the end of the zeros that its commit left.
fn is_of_last_commit(log: &[u8], page: usize, stop: &Stop) -> bool
    requires head { 32 ≤ length log.now }
    requires page { page ≤ 65536 }
    requires stop { StopsAt page log.now stop.now }
    ensures { IsTrue result ↔ IsOfLastCommit page log.now (stop.now.first) (stop.now.frame) }
{
    let head = &log[..HEADER];
    let end = stop.first_at + BLANK;
    let mut at = stop.at;
    let mut is_behind = false;
    while let Some(frame) = frame_from(log, page, at) {
        if at >= end {
            return true;
        }
        if has_salts(head, frame) {
            if is_behind {
                return false;
            }
            is_behind = commits(frame);
        }
        at += frame.len();
    }
    true
}

/// Returns true if the commit of a stop is one of one sync, and lost bytes and nothing else.
fn may_have_lost(log: &[u8], page: usize, stop: &Stop) -> bool
    requires head { 32 ≤ length log.now }
    requires page { (8 ≤ page) × (page ≤ 65536) }
    requires stop { StopsAt page log.now stop.now }
    ensures { IsTrue result ↔ MayHaveLost page log.now (stop.now.first) }
{
    let head = &log[..HEADER];
    let mut at = stop.first_at;
    let mut frame = &log[at..at + (FRAME_HEADER + page)];
    let number = number_at(frame, 0);
    if number != COUNT && number != 0 {
        return false;
    }
    let mut commit = Commit::begin(head, stop.first_sum, frame);
    while !commits(frame) {
        at += frame.len();
        let Some(next) = frame_from(log, page, at) else {
            return true;
        };
        commit = commit.go_on(head, next);
        frame = next;
    }
    commit.ends_lost(frame)
}
