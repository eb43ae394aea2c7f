//! Reads the statements of preference scripts from tokens, each production exactly: a function
//! answers what its production stands for, or leaves the cursor at the first token that fits
//! nowhere. The parser of scripts stands on it.
#![tactic(auto)]

mod parser;
mod statements;

pub use parser::Parser;
