//! What the grammars of both script languages are made of, preference scripts and SQL scripts:
//! tokens by class, the words in which a grammar is written for any names of productions, columns,
//! literals, operators and order items; and a cursor that reads tokens.
#![tactic(auto)]

mod class;
mod columns;
mod cursor;
mod held;
pub mod laws;
mod phrases;

pub use class::TokenClass;
pub use cursor::{Cursor, Stop};
pub use held::{both, pushed};
