//! Callers of the office and of the station, to copy.
//!
//! Each is proved from the public clauses of the calls alone: what one call leaves is what the next one's clause asks of.
#![tactic(auto)]

pub mod office;
pub mod station;
