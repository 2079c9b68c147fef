//! From the counts of a load cell's converter to tenths of the verification scale interval.
//!
//! A calibration is made of 2 to 8 points, each the counts of the cell under a load that was put on with test weights. Of any
//! counts it gives the load on the straight line through the two points between which they lie, rounded to a tenth, an exact half up.
//! Counts past either end lie on the line of the two points at that end, as far as a load converter hands loads in. What is proved,
//! whatever the points and the counts: at each point the load is that point's, more counts give no less load (fewer, for
//! a cell whose counts fall), the load lies within half a tenth of the line, and nothing overflows (`proofs/Theorems.antt`).
//! No call takes memory.
#![tactic(auto)]

mod calibration;
mod fault;
mod filter;
mod point;
mod readings;
mod segment;

pub use calibration::{Calibration, MOST_POINTS};
pub use fault::CalibrationFault;
pub use filter::Filter;
pub use point::Point;
pub use readings::Readings;
