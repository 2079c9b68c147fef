//! Traces: the lines that a replay reads, and the events that they stand for.
//!
//! `read_trace` reads a whole trace, `first_line` cuts it, and `read_line` reads a line as `specs/TraceLines` says.
#![tactic(auto)]

mod lines;
mod numerals;
mod request_line;
mod trace;
mod trace_line;

pub use lines::{first_line, split_word};
pub use request_line::HEAD_ROOM;
pub use trace::{TraceFault, read_trace};
pub use trace_line::{TraceLine, read_line};
