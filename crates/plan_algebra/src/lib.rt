//! Plans of a query: what they are, what they mean, which of them are valid, and how they read as
//! text.
#![tactic(auto)]

mod explain;
mod plan;

pub use explain::explain_text;
pub use plan::{Conjunct, Plan};
