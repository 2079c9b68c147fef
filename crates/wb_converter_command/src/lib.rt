//! The command line of `weighbridge-converter`: what its words ask for.
//!
//! The words are read by `clap`. A function of this crate returns whatever they are; which options there are, their defaults and
//! their refusals are tested.
#![tactic(auto)]

mod arguments;
mod filter_words;
mod making_words;
mod words;

pub use making_words::{Load, Sampling};
pub use words::{ConverterInvocation, REFUSED, Receiver, Running, read_words};
