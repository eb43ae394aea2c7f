//! What the rules do to a plan, node by node, and that it leads from each stage to the next.
#![tactic(auto)]

mod laws;
mod rewriting;

pub use laws::rules_lead_on;
pub use rewriting::{placed, prefiltered, split};
