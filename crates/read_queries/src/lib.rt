//! The queries that an SQL text reads as are well formed, and they fit the tables.
//!
//! The crate has no code that runs, and one law.
#![tactic(auto)]

mod laws;

pub use laws::read_queries_law;
