//! What the program `weighbridge-converter` does, apart from files: counts of a load cell become lines of tenths of the verification
//! scale interval, and counts under test weights become the points of a calibration.
//!
//! A line of counts is answered by the load of a calibration or by `lost`, and the newest answer goes to the client, or none. What a line
//! says, what is made of the last readings, which line goes out, how mean and spread are told, and which points were taken is proved, and takes no memory; streams
//! and the clock are at the edge, in `client.rt` and `running.rt`.
#![tactic(auto)]

mod answering;
mod client;
mod counts;
mod filtering;
mod median;
mod outbox;
mod per_interval;
mod running;
mod sample;
mod sampling;
mod taken;
mod weights;

pub use answering::{answer, answer_to};
pub use client::Clients;
pub use counts::counts_line;
pub use filtering::Filtering;
pub use outbox::{LINE_ROOM, Outbox};
pub use per_interval::sensitivity;
pub use running::{RunEnd, run};
pub use sample::{mean, spread};
pub use sampling::{SampleFault, read_counts};
pub use taken::with_point;
pub use weights::tenths_of_weights;
