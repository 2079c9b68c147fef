//! A scale: its zero, zero tracking, tares, what it indicates, and whether the bridge was cleared.
//!
//! A scale takes readings of a load in tenths of the verification scale interval e, and calls that set its zero or its
//! tare. What it answers is defined on the whole history of its calls: see `specs/`. No call takes memory.
#![tactic(auto)]

mod answers;
mod cleared;
mod indication;
mod load;
mod scale;
mod tare;
mod tracking;
mod zero_setting;

pub use answers::{Indicated, PresetAnswer, TareAnswer, TareNow, ZeroAnswer};
pub use scale::Scale;
