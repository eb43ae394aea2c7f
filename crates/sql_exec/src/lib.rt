//! Runs SQL queries over a set of tables, under three-valued logic (ISO/IEC 9075:1992).
#![tactic(auto)]

mod alike;
mod distinct;
mod evaluation;
mod executing;
mod gathering;
mod laid_out;
mod preparing;
mod reach;
mod ready;
mod row_groups;
mod row_key;
mod scopes;
mod steps;
mod walk;

pub use executing::execute;
