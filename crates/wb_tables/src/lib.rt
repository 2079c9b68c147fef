//! The tables of a legal weighing journal: their rows as entries and spent keys, what their lists say, and look-ups in them.
#![tactic(auto)]

pub mod acceptance;
pub mod agreeing;
pub mod counts;
pub mod failure;
pub mod open_weighings;
pub mod partners;
pub mod queries;
pub mod rows;
pub mod spent;
pub mod tables;
pub mod texts;
