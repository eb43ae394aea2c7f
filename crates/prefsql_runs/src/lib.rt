//! Tests of whole runs over memory forms: worked rows, and what stands on `out` and `err` at each
//! end.
//! Nothing stands on this crate.
#![tactic(auto)]

#[cfg(test)]
mod answers;
#[cfg(test)]
mod case;
#[cfg(test)]
mod devices;
#[cfg(test)]
mod faults;
#[cfg(test)]
mod kinds;
#[cfg(test)]
mod sql;
#[cfg(test)]
mod texts;
