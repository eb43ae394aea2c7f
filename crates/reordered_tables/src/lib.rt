//! What the places of rows in their tables leave as it was: the answers of queries.
//!
//! The crate has no code that runs, and one law.
#![tactic(auto)]

mod laws;

pub use laws::reordered_tables_law;
