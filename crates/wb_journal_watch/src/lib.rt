//! The watch around a journal that is served: its place, the newest entry that was answered, the zero that was set, and the pace of readings.
//!
//! The watch looks at the journal's place before it passes a request on, and again before a stored entry is answered. An entry that is stored in a file
//! that was unlinked, replaced or cut is gone after the next start, and its number is given again. The witness gets an entry before the client does.
#![tactic(auto)]

mod guarded;
mod pace;
mod zero_note;

pub use guarded::Guarded;
