//! The first plan of a query, and the rules that lead from it to its last one. Each gives exactly
//! the plan of its stage, which means what the plan before it meant.
#![tactic(auto)]

mod rules;

pub use rules::{add_prefilters, lower_filters, lower_only, split_cascades, start_plan};
