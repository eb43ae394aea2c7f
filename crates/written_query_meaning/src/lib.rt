//! What the SQL query of a block means: the block's answer, over every set of tables that the block
//! fits.
//!
//! The crate has no code that runs, and its four laws are the steps of the proof: the rows of the
//! auxiliary query, that no rank in them is NULL, the conditions on two candidates, and the whole
//! query.
#![tactic(auto)]

mod laws;

pub use laws::{has_ranks, holds_candidates, judges_candidates, means_answer};
