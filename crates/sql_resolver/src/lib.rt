//! What the parts of an SQL script mean over a set of tables: the queries that they are, and what
//! they owe and do not keep. The language is this project's own profile of SQL-92 (ISO/IEC
//! 9075:1992).
#![tactic(auto)]

mod conds;
mod fault;
mod found;
mod from;
mod index;
mod leaves;
mod meaning;
mod order;
mod outputs;
mod query;
mod resolver;
mod scalars;
mod scope;
mod statements;

pub use statements::{ResolveFault, resolve};
