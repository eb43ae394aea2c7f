//! The SQL query of a block is valid: it is well formed, each column in it is told by its names,
//! and its text nests at most
//! 256 deep. It fits each set of tables that the block fits.
//!
//! The crate has no code that runs, and two laws.
#![tactic(auto)]

mod laws;

pub use laws::{writes_fitting, writes_valid};
