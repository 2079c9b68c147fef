//! A look at the log of a journal's file, over its bytes, before the file is opened.
//!
//! Opening takes what stands before the first damaged frame, and what stands behind it is lost without a word. So a log is refused that no
//! power cut can have left while the disk keeps what was synced.
#![tactic(auto)]

mod bytes;
mod commit;
mod frames;
mod header;
mod rules;
#[cfg(test)]
mod tests;

pub use rules::{Refusal, look};
