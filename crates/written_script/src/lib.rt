//! The SQL script that a preference script is written as: over every set of tables that is alike,
//! its text reads as the queries of the blocks, and what these answer is what the blocks answer.
//!
//! The crate has no code that runs, and one law.
#![tactic(auto)]

mod laws;

pub use laws::written_script_law;
