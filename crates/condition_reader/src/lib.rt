//! Reads the conditions of preference scripts from tokens, each production exactly: a function
//! answers what its production stands for, or leaves the cursor at the first token that fits
//! nowhere.
#![tactic(auto)]

mod reader;

pub use reader::ConditionReader;
