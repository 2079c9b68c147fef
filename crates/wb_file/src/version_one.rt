//! All that knows of version 1: how its journal in a file is brought into another.

pub(crate) mod blank;
pub(crate) mod migration;
pub(crate) mod progress;
