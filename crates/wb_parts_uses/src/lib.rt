//! Callers of the crates that need no store, to copy: of the scale, of the journal and of the terminal.
//!
//! Each is proved from the public clauses of the calls alone: what one call leaves is what the next one's clause asks of.
#![tactic(auto)]

pub mod journal;
pub mod scale;
pub mod terminal;
