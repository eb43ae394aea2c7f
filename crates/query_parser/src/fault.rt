//! What parsing answers where the tokens are no script.

use prefsql_lexer::Spot;

/// Why there are no trees.
#[derive(Clone, Copy, Debug, PartialEq, Eq)]
pub enum ParseFault {
    /// The first grammar fault and its place in bytes: E202 where the script ends too early, E203
    /// where a 65th statement begins, E201 at any other token that fits nowhere.
    Bad(Spot),
    /// Want of memory.
    Memory,
}
