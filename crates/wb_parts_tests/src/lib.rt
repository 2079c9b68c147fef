//! Worked rows of the instrument, the windows, the scale, the terminal, the journal, its witness, the converter and the command lines: tests of the crates
//! that need no store, through what they offer.
//!
//! They are a crate of their own because a crate is proved once more for its tests.
#![tactic(auto)]

#[cfg(test)]
mod tests;
