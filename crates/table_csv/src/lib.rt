//! Typed CSV: a file as a table, and an answer as text.
#![tactic(auto)]

mod cell;
mod codes;
mod fault;
mod field;
mod header;
mod reading;
mod row;
mod writing;

pub use fault::{TableFault, TableSpot};
pub use reading::read_table;
pub use writing::answer_text;
