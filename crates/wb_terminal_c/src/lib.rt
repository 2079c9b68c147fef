//! The terminal as a library for C, and for what calls C.
//!
//! A terminal lies in memory of the caller's: no call takes memory, and none keeps a pointer. Each call says after which history
//! the terminal stands; what it replies is what `wb_sics` defines, and what it indicates what `wb_scale` defines.
#![tactic(auto)]

mod exports;
pub mod handle;
pub mod indication;
pub mod setup;
mod window;
