//! Runs a plan over tables.
#![tactic(auto)]

mod asking;
mod combos;
mod equating;
mod finding;
mod joining;
mod laws;
mod running;

pub use laws::bounds_agree;
pub use running::{PlanRun, run_plan};
