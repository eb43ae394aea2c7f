//! Names and literals.

use prefsql_values::{Text, Value};

/// A column `first` or `first.second`. A regular identifier is in upper case, a delimited one as it
/// is written.
#[derive(Debug, Drop)]
pub struct NameTree {
    pub first: Text,
    pub second: Option<Text>,
    /// The place of the first identifier.
    pub at: u32,
}

/// A whole number with its sign, or a text.
#[derive(Debug, Drop)]
pub struct LiteralTree {
    pub value: Value,
    /// The place of the literal, to which its sign belongs.
    pub at: u32,
}
