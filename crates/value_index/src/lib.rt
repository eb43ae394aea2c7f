//! The places of a list of cells by their values, so that the equal ones are found without going
//! through the list.
#![tactic(auto)]

mod index;
mod key;

pub use index::ValueIndex;
