//! The plans of a query, stage by stage: what stands where in them, and the pieces that they are
//! made of.
#![tactic(auto)]

mod cascades;
mod conjuncts;
mod groups;
mod nodes;
mod placing;
mod sinking;

pub use cascades::cascade;
pub use conjuncts::{onlys, wheres};
pub use groups::{table_groups, table_term};
pub use nodes::{best, bests, filter_above, filtered, join, joined_scans, preferred};
pub use placing::{at_join, at_scan};
pub use sinking::{lowered, staying};
