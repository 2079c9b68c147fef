//! The command line of the program: what its words ask for.
//!
//! The words are read by `clap`. A function of this crate returns whatever they are; which options there are, their defaults and
//! their refusals are tested.
#![tactic(auto)]

mod journal_words;
mod service_words;
mod setup_words;
mod words;

pub use service_words::Service;
pub use setup_words::SetupFault;
pub use words::{Asked, Invocation, REFUSED, VERSION, read_words};
