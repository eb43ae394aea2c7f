//! Tests over several crates: which base preferences are made, what is left of a term of them, the
//! best of a list by one of them, what queries answer by their meaning and by their plans, and the
//! bench.
//! Nothing stands on this crate.
#![tactic(auto)]

#[cfg(test)]
mod bench;
#[cfg(test)]
mod cars;
#[cfg(test)]
mod parts;
#[cfg(test)]
mod plans;
#[cfg(test)]
mod refusals;
#[cfg(test)]
mod window;
