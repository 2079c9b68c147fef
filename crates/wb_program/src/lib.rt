//! What the program `weighbridge` does.
//!
//! `replay` reads a trace of converter readings, terminal lines and requests to the office, and prints the replies and responses of
//! a station over a journal in memory, over any reader and writer. `print_check` and `print_export` print what the check of a store
//! finds, and its exports, and `print_migrated` how many entries a migration brought over. `serve` runs a station over its sources, turn by turn.
//! The command line and the process's own streams are in the crate `weighbridge`.
#![tactic(auto)]

mod commands;
mod migrated;
mod performing;
mod printing;
mod replaying;
mod serving;

pub use commands::{PrintFault, What, print_check, print_export};
pub use migrated::print_migrated;
pub use replaying::{ReplayEnd, replay};
pub use serving::{ServeEnd, serve};
