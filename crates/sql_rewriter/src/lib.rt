//! Queries with preferences written as SQL-92 queries: by level columns and NOT EXISTS (after
//! Kießling and Köstler 2002).
#![tactic(auto)]

mod auxiliary;
mod columns;
mod leaf_ranks;
mod literals;
mod names;
mod parts;
mod plain;
mod rankings;
mod rewriting;
mod shown;
mod terms;
mod used;

pub use rewriting::rewrite;
