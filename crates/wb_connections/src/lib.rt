//! The connections of a service, over any stream: a load converter, a terminal and its listener, an office's clients and their listener.
//!
//! The converter alone is waited for. No client makes a turn wait: connections are kept over turns, read as they send and written as they
//! take, and each has its time. What that is worth in seconds, bytes and connections stands in one place.
#![tactic(auto)]

mod address;
mod cause;
mod connection;
mod converter;
mod converter_lines;
mod limits;
mod office;
mod ready;
mod report;
mod source;
mod terminal;
mod waiting;

pub use address::{AddressFault, listen, loopback};
pub use cause::Cause;
pub use connection::Requests;
pub use converter::{ConverterFault, ConverterLink};
pub use converter_lines::{CONVERTER_ROOM, Lines};
pub use limits::{ENDLESS_LINE, FINISH_SECONDS, FRESH_SECONDS, LOOK_MILLIS, PAUSE_MILLIS};
pub use office::OfficeClients;
pub use ready::is_past;
pub use report::Report;
pub use source::{Source, stop_waiting};
pub use terminal::TerminalClients;
