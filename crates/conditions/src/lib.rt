//! Conditions over combinations of rows, in three-valued logic (ISO/IEC 9075:1992), with the
//! qualities of preferences.
#![tactic(auto)]

mod condition;
mod truth;

pub use condition::{Cond, Quality, Scalar};
pub use truth::{holds, scalar_cell};
