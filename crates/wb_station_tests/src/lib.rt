//! Requests, responses and whole days at a station: tests of `wb_station` through what it offers.
//!
//! They are a crate of their own because a crate is proved once more for its tests.
#![tactic(auto)]

#[cfg(test)]
mod tests;
