//! Counts under one load, read from lines.
ghost use Rattle.std.specs.Prelude.{◌≡◌, ◌≤◌, ◌++◌, ◌∷◌, ℕ, [], IfOk, IfSome, List, OnOk, Some, map, vec_len};
ghost use Rattle.wb_converter.specs.Counts.{AreCounted, AreOfFirstLines, HasNoEnd, IsHeld, counts_in, counts_of_partial};

use crate::counts::{LINE, counts_line};
use std::alloc::Global;
use std::io::Read;
use thiserror::Error;
use wb_input::LineBuffer;

/// How many bytes of lines are read at once.
const ROOM: usize = 512;

/// The most reads. An input that gives fewer bytes at a time is a fault.
const READS: u32 = 10_000_000;

/// Why no point was taken of lines.
#[derive(Clone, Copy, Debug, PartialEq, Eq, Error)]
pub enum SampleFault {
    /// The line at this place, from 1, has no counts.
    #[error("line {0} has no counts")]
    Line(u64),
    /// The input ended after so many lines.
    #[error("only {0} lines came")]
    Few(u64),
    /// The input can't be read.
    #[error("input fault")]
    Input,
    /// Memory was refused.
    #[error("want of memory")]
    Memory,
}

/// Reads the first `lines` lines of `input`, and returns their counts in order. Bytes after the last LF are no line.
///
/// # Errors
///
/// A line has no counts, the input ends too early or can't be read, or memory was refused.
pub fn read_counts<I: Read>(
    alloc: Global,
    input: &mut I,
    lines: u32,
) -> Result<Vec<i32>, SampleFault>
    ensures all { IfOk result (λ counts. vec_len counts ≡ lines) }
    ensures value { IfOk result (λ counts. IfSome (I.remaining input.old) (AreOfFirstLines (map Some counts.items))) }
{
    let mut line = LineBuffer::<LINE>::new();
    let mut counts = Vec::new(alloc);
    let mut room = [0u8; ROOM];
    for _ in 0..READS {
        if counts.len() == lines as usize {
            return Ok(counts);
        }
        match input.read(&mut room) {
            Ok(0) => return Err(SampleFault::Few(counts.len() as u64)),
            Ok(count) => push_counts(&mut counts, &mut line, &room[..count], lines)?,
            Err(_) => return Err(SampleFault::Input),
        }
    }
    Err(SampleFault::Input)
}

/// Adds `bytes` to the line that has begun, and appends the counts of each line that they end, until there are `lines` of them.
fn push_counts(
    counts: &mut Vec<i32>,
    line: &mut LineBuffer<LINE>,
    bytes: &[u8],
    lines: u32,
) -> Result<(), SampleFault>
    ensures { (begun after : List ℕ) → vec_len counts.old ≤ lines → HasNoEnd begun → IsHeld line.old begun
        → OnOk result (AreCounted lines (map Some counts.new.items) line.new after (map Some counts.old.items ++ counts_in (begun ++ bytes.now ++ after))) }
{
    let mut left = bytes;
    while counts.len() < lines as usize {
        let Some(after) = line.take(left) else {
            return Ok(());
        };
        left = after;
        push_line(counts, line)?;
        line.begin();
    }
    Ok(())
}

/// Appends the counts of the line that is held.
fn push_line(counts: &mut Vec<i32>, line: &LineBuffer<LINE>) -> Result<(), SampleFault>
    ensures { OnOk result (map Some counts.new.items ≡ map Some counts.old.items ++ counts_of_partial line.now ∷ []) }
{
    let Some(read) = counts_line(line.line().unwrap_or(&[])) else {
        return Err(SampleFault::Line(counts.len() as u64 + 1));
    };
    match counts.push(read) {
        Ok(()) => Ok(()),
        Err(_) => Err(SampleFault::Memory),
    }
}
