//! The best rows of each group, found group by group, with a count of the tests that finding them
//! took.
#![tactic(auto)]

mod best;
mod jumps;
mod kept;
mod leaf_keys;
mod leaf_tests;
mod marks;
mod members;
mod ranked;

pub use best::best_of_groups;
