//! Replays, turns of the service, what is printed of a journal, and the connections of a service: tests of `wb_program`, `wb_connections` and
//! `wb_sockets` through what they offer.
//!
//! They are a crate of their own because a crate is proved once more for its tests.
#![tactic(auto)]

#[cfg(test)]
mod tests;
