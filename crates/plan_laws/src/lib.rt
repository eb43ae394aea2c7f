//! Laws of the plans of a query, stage by stage: each gives the query's kept rows, and each is
//! valid.
#![tactic(auto)]

mod laws;

pub use laws::{stages_are_valid, stages_give_kept_rows};
