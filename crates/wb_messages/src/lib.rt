//! What comes to a station, what the office is asked, and what it answers or refuses: the types that traces, HTTP, the office and the station share.
//!
//! `specs/Happening` is a history of events, `specs/Content` what an answer tells, `specs/RefusalText` the numbers and names of refusals.
#![tactic(auto)]

mod answer;
mod event;
mod notice;
mod refusal;
mod request;

pub use answer::{Answer, CsvText, TEXT_ROOM};
pub use event::Event;
pub use notice::{EntryName, Notice};
pub use refusal::Refusal;
pub use request::Request;
