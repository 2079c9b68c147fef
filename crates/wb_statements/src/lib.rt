//! What the text of an SQL statement means in each schema that has its tables, whatever else the schema has.
//!
//! The crate has no code: its definitions stand in specs/, its lemmas in proofs/, and both are for the crates above.
#![tactic(auto)]
