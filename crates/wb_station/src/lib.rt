//! The station: a terminal and an office over one scale, event by event.
//!
//! Readings, bytes of the terminal, hang-ups and requests come in one list. `specs/Account` reads off a history what came to the
//! terminal, the entries and the spent keys, and what is put out at each event, by the definitions of the terminal and of the
//! office; a request that is answered 503 counts as never made. `Station::turn`, `read`, `answer` and `run` meet it for every history.
//!
//! Requests come as bytes, or judged before, and responses are bytes, both by `wb_http`. `Sources` is what a service takes events
//! from, as a trait, and `ListSources` such sources in memory.
#![tactic(auto)]

mod asking;
mod event;
mod hearing;
mod list_sources;
mod output_list;
mod outputs;
mod run;
mod sources;
mod station;

pub use event::{Output, Turned};
pub use list_sources::{Answered, HandedIn, ListSources, ListTurn};
pub use output_list::{OutputList, Placed};
pub use outputs::{Outputs, Refused};
pub use run::{ReplyBytes, RunStopped, reply_bytes};
pub use sources::{Exchange, Incoming, Sources};
pub use station::{OpenRefused, Station};
pub use wb_http::{
    HttpFault, Judged, Method, Outcome, ResponseRoom, Routes, request_of, response_bytes,
};
pub use wb_messages::{EntryName, Event, Notice};
