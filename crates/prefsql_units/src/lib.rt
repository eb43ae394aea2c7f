//! Tests of the lower crates: what their public calls give, and what no clause says.
//! Nothing stands on this crate.
#![tactic(auto)]

#[cfg(test)]
mod base_preferences;
#[cfg(test)]
mod devices;
#[cfg(test)]
mod files;
#[cfg(test)]
mod scripts;
#[cfg(test)]
mod sql_trees;
#[cfg(test)]
mod tables;
#[cfg(test)]
mod tokens;
#[cfg(test)]
mod values;
