//! The meaning of a query: its candidates, the best of them, and what they show.
#![tactic(auto)]

mod asking;
mod block;
mod fitting;
mod plain;
mod valid;

pub use asking::Asked;
pub use block::{Block, FromTable, Output};
pub use plain::{has_best_rows, indexes_of, plain_answer};
pub use valid::numbers_tell_leaves;
