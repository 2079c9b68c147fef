//! Openings, changes and stops of a store, and days at the office over it: tests of `wb_store` and of `wb_office` through what they offer.
//!
//! They are a crate of their own because a crate is proved once more for its tests.
#![tactic(auto)]

#[cfg(test)]
mod tests;
