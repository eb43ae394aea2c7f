//! Terms of base preferences, and which of two combinations of rows is better by them (Kießling,
//! VLDB 2002).
#![tactic(auto)]

mod bound;
mod parts;
mod ranking;
mod term;

pub use bound::BoundTerm;
pub use parts::{is_closed_leaf, restrict};
pub use term::{Leaf, Term};
