//! The laws of reading back: the text of a valid SQL query reads as that query alone, and the texts
//! of several, one after the other, read as these.
#![tactic(auto)]

mod laws;

pub use laws::{reads_back, texts_read_back};
