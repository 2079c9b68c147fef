//! The setup of a weighing instrument: its limits, rounding, weight texts and preset tares.
//!
//! A load of x tenths of the verification scale interval e is indicated in whole e. An instrument is made only of a
//! setup whose nine parts are all within their limits, so every number that depends on them is there for the taking:
//! the limits of indication, the range of the zero, the tracking gap, the preset tare of so many grams. No call takes
//! memory.
#![tactic(auto)]

mod code;
mod field;
mod interval;
mod limits;
mod preset;
mod rounding;
mod serial;
mod setup;

pub use code::{Alphabet, Code, NotACode};
pub use field::weight_field;
pub use interval::is_interval;
pub use limits::MIN_INTERVALS;
pub use rounding::round_tenths;
pub use serial::{Serial, SerialCharacters};
pub use setup::{Instrument, PartFault, Parts};
