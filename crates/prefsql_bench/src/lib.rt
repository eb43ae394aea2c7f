//! The bench of the program: its table, its three statements and its summary.
#![tactic(auto)]

mod draws;
mod statements;
mod summary;
mod table;

pub use statements::bench_blocks;
pub use summary::bench_text;
pub use table::{bench_table, bench_tables};
