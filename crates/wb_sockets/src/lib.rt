//! The sources of the service over real sockets and files: a load converter, a terminal's listener, an office's listener, a clock.
//!
//! A turn takes its pace from the converter alone. No client makes it wait: `wb_connections` keeps their connections over turns.
#![tactic(auto)]

mod clients;
mod requests;
mod sockets;
mod telling;
mod wall_clock;

pub use requests::StationRequests;
pub use sockets::{Sockets, StartFault};
pub use wb_connections::{AddressFault, Cause, ConverterFault, ConverterLink, listen, loopback};
