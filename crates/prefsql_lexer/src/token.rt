//! The tokens of scripts.

use prefsql_values::Text;

/// A reserved word, which stands for the word in capitals in any case of its letters.
#[derive(Clone, Copy, Debug, PartialEq, Eq)]
pub enum Keyword {
    And,
    Around,
    As,
    Asc,
    Between,
    But,
    By,
    Cascade,
    Case,
    Desc,
    Distance,
    Distinct,
    Dual,
    Else,
    End,
    Exists,
    Explicit,
    From,
    Grouping,
    Highest,
    In,
    Is,
    Layered,
    Level,
    Lowest,
    Not,
    Null,
    Only,
    Or,
    Order,
    Others,
    Preferring,
    Regular,
    Rounds,
    Select,
    Then,
    Top,
    Trivial,
    When,
    Where,
}

/// A symbol: `(`, `)`, `,`, `.`, `;`, `=`, `<>`, `<`, `<=`, `>`, `>=`, `+`, `-`, `*`.
#[derive(Clone, Copy, Debug, PartialEq, Eq)]
pub enum Symbol {
    LeftParen,
    RightParen,
    Comma,
    Dot,
    Semicolon,
    Equal,
    NotEqual,
    Less,
    LessEqual,
    Greater,
    GreaterEqual,
    Plus,
    Minus,
    Star,
}

/// What a token is, and its value.
#[derive(Debug, Drop)]
pub enum TokenKind {
    Word(Keyword),
    /// An identifier: a regular one in capitals, a delimited one as it stands between its quotes,
    /// each doubled quote once.
    Name(Text),
    /// The number that the digits write.
    Number(i64),
    /// What stands between the quotes, each doubled quote once.
    Chars(Text),
    Symbol(Symbol),
}

/// A token and its span in the script, in bytes.
#[derive(Debug, Drop)]
pub struct Token {
    pub kind: TokenKind,
    /// The number of bytes before the token.
    pub start: u32,
    /// The number of bytes before what follows the token.
    pub end: u32,
}
