//! What is the same over two sets of tables that differ in their rows alone: which blocks fit them,
//! and what the typing of a preference script gives.
//!
//! The crate has no code that runs, and one law.
#![tactic(auto)]

mod laws;

pub use laws::alike_tables_law;
