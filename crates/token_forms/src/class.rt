//! The classes by which a grammar tells tokens apart.

ghost use Rattle.std.specs.Prelude.{◌≡◌, ◌==◌};
ghost use Rattle.token_forms.specs.Classes as spec;

use prefsql_lexer::{Keyword, Symbol, Token, TokenKind};

/// What a grammar sees of a token: its kind, and for a symbol or a reserved word which one it is.
#[derive(Clone, Copy, Debug)]
pub enum TokenClass {
    /// An identifier that is no reserved word.
    Name,
    /// A number without a sign.
    Number,
    /// A text in quotes.
    Text,
    Symbol(Symbol),
    Word(Keyword),
}

impl TokenClass {
    /// The class of the token.
    pub fn of(token: &Token) -> TokenClass
        ensures { result ≡ spec.class_of token.now }
    {
        match &token.kind {
            TokenKind::Word(word) => TokenClass::Word(*word),
            TokenKind::Name(_) => TokenClass::Name,
            TokenKind::Number(_) => TokenClass::Number,
            TokenKind::Chars(_) => TokenClass::Text,
            TokenKind::Symbol(symbol) => TokenClass::Symbol(*symbol),
        }
    }

    /// Whether the token is of this class.
    pub fn has(self, token: &Token) -> bool
        ensures { result ≡ (spec.class token.now == spec.number_of self) }
    {
        TokenClass::of(token).number() == self.number()
    }

    /// A number that no other class has.
    fn number(self) -> u8
        ensures { result ≡ spec.number_of self }
    {
        match self {
            TokenClass::Name => 0,
            TokenClass::Number => 1,
            TokenClass::Text => 2,
            TokenClass::Symbol(symbol) => symbol_number(symbol),
            TokenClass::Word(word) => word_number(word),
        }
    }
}

fn symbol_number(symbol: Symbol) -> u8
    ensures { result ≡ spec.symbol_number symbol }
{
    match symbol {
        Symbol::LeftParen => 3,
        Symbol::RightParen => 4,
        Symbol::Comma => 5,
        Symbol::Dot => 6,
        Symbol::Semicolon => 7,
        Symbol::Equal => 8,
        Symbol::NotEqual => 9,
        Symbol::Less => 10,
        Symbol::LessEqual => 11,
        Symbol::Greater => 12,
        Symbol::GreaterEqual => 13,
        Symbol::Plus => 14,
        Symbol::Minus => 15,
        Symbol::Star => 16,
    }
}

fn word_number(word: Keyword) -> u8
    ensures { result ≡ spec.word_number word }
{
    match word {
        Keyword::And => 17,
        Keyword::Around => 18,
        Keyword::As => 19,
        Keyword::Asc => 20,
        Keyword::Between => 21,
        Keyword::But => 22,
        Keyword::By => 23,
        Keyword::Cascade => 24,
        Keyword::Case => 25,
        Keyword::Desc => 26,
        Keyword::Distance => 27,
        Keyword::Distinct => 28,
        Keyword::Dual => 29,
        Keyword::Else => 30,
        Keyword::End => 31,
        Keyword::Exists => 32,
        Keyword::Explicit => 33,
        Keyword::From => 34,
        Keyword::Grouping => 35,
        Keyword::Highest => 36,
        Keyword::In => 37,
        Keyword::Is => 38,
        Keyword::Layered => 39,
        Keyword::Level => 40,
        Keyword::Lowest => 41,
        Keyword::Not => 42,
        Keyword::Null => 43,
        Keyword::Only => 44,
        Keyword::Or => 45,
        Keyword::Order => 46,
        Keyword::Others => 47,
        Keyword::Preferring => 48,
        Keyword::Regular => 49,
        Keyword::Rounds => 50,
        Keyword::Select => 51,
        Keyword::Then => 52,
        Keyword::Top => 53,
        Keyword::Trivial => 54,
        Keyword::When => 55,
        Keyword::Where => 56,
    }
}
