//! HTTP as the office speaks it: from a request's bytes to what the office is asked, and from its answer to a response's bytes.
//!
//! The bytes of a request are judged in the order of `specs/HttpJudgement`, and an answer, a refusal or a fault is put into the form of
//! `specs/Response`. Whoever reads requests from a stream judges them as their bytes come (`Judged`).
#![tactic(auto)]

mod body_length;
mod body_lines;
mod fault;
mod form;
mod head;
mod judged;
mod outcome;
mod request;
mod response;
mod response_head;
mod room;
mod routes;

pub use fault::{HttpFault, Method};
pub use judged::Judged;
pub use outcome::Outcome;
pub use request::request_of;
pub use response::response_bytes;
pub use room::ResponseRoom;
pub use routes::Routes;
