//! The MT-SICS terminal: lines, commands, waiting and replies.
//!
//! The terminal takes readings of the load converter and single bytes of its stream, and gives the replies at each.
//! A line is cut at an LF, however the stream came in pieces; its command answers at once or, for `S`, `Z` and `T`,
//! waits for its condition up to a limit of readings; `SIR` has the value repeated at each reading. What a terminal keeps
//! and answers is proved for every history of readings, bytes, hang-ups and stored weighings; of the scale nothing is
//! defined again here: a terminal's history maps to the calls of its scale. No call takes memory.
#![tactic(auto)]

mod answers;
mod command;
mod grams;
mod repetition;
mod reply;
mod terminal;
mod unfinished_line;
mod waiting;

pub use command::{Command, parse_line};
pub use reply::{CommandName, Replies, Reply, ReplyText};
pub use terminal::Terminal;
