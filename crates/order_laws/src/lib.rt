//! What a preference is, its constructors, and laws of the best items of a list (Kießling,
//! Foundations of Preferences in Database Systems, VLDB 2002). No call here takes memory.
#![tactic(auto)]

mod constructors;
pub mod laws;
mod preference;

pub use constructors::{Flip, Pareto, Prior};
pub use preference::Preference;

#[cfg(test)]
mod tests;
