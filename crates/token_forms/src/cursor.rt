//! A cursor over the tokens of a script.

ghost use Rattle.std.specs.Prelude.{◌≡◌, [], ◌∷◌, List, IfOk, MatchOption, false, IsTrue, ◌↔◌};
ghost use Rattle.grammar_forms.specs.Reading.{begins, read_token};
ghost use Rattle.token_forms.specs.Classes as spec;
ghost use Rattle.token_forms.specs.Place.{place_of};
ghost use Rattle.token_forms.specs.Reads.{Eats, Reads};

use crate::class::TokenClass;
use prefsql_lexer::{Keyword, Symbol, Token, TokenKind};
use prefsql_values::{Memory, Text};
use std::alloc::Global;
use std::marker::Model;

/// Why a production was not read.
#[derive(Clone, Copy, Debug, PartialEq, Eq)]
pub enum Stop {
    /// The next token fits nowhere.
    Fault,
    /// Want of memory.
    Memory,
}

impl From<Memory> for Stop {
    ghost use Rattle.std.specs.Prelude.{◌≡◌};
    ghost use Rattle.token_forms.specs.declared.cursor.Stop.TheVariants.{Memory};

    ghost from_gives = { λ _ e. e ≡ Memory };

    fn from(_memory: Memory) -> Stop {
        Stop::Memory
    }
}

/// The tokens that are left. After a fault it stands at the first token that fits nowhere. A
/// contract sees it as their list.
#[derive(Drop)]
pub struct Cursor<'a> {
    pub(crate) alloc: Global,
    tokens: &'a [Token],
}

impl<'a> Model for Cursor<'a> {
    ghost use Rattle.std.specs.Prelude.{List};
    ghost use Rattle.prefsql_lexer.specs.declared.token.Token.{Token};

    ghost Value = { List Token };

    ghost view = { λ c. c.tokens.now };
}

impl<'a> Cursor<'a> {
    /// All these tokens are left. Names and texts are copied to the heap of `alloc`.
    pub fn new(alloc: Global, tokens: &'a [Token]) -> Cursor<'a>
        ensures { result ≡ tokens.now }
    {
        Cursor { alloc, tokens }
    }

    /// Whether the next token is of this class.
    fn at(&self, class: TokenClass) -> bool
        ensures { result ≡ begins spec.class (spec.number_of class ∷ []) self.now }
    {
        match self.tokens.first() {
            None => false,
            Some(token) => class.has(token),
        }
    }

    /// Whether no token is left.
    pub fn is_at_end(&self) -> bool
        ensures { IsTrue result ↔ (self.now ≡ []) }
    {
        self.tokens.is_empty()
    }

    /// The place of the next token in bytes, or `end` where none is left.
    pub fn place(&self, end: u32) -> u32
        ensures { result ≡ place_of self.now end }
    {
        match self.tokens.first() {
            None => end,
            Some(token) => token.start,
        }
    }

    /// Whether the next token is this symbol.
    pub fn at_symbol(&self, symbol: Symbol) -> bool
        ensures { result ≡ begins spec.class (spec.symbol_class symbol ∷ []) self.now }
    {
        self.at(TokenClass::Symbol(symbol))
    }

    /// Whether the next token is this reserved word.
    pub fn at_word(&self, word: Keyword) -> bool
        ensures { result ≡ begins spec.class (spec.word_class word ∷ []) self.now }
    {
        self.at(TokenClass::Word(word))
    }

    /// Whether the next token is a text in quotes.
    pub fn at_chars(&self) -> bool
        ensures { result ≡ begins spec.class (spec.chars_class ∷ []) self.now }
    {
        self.at(TokenClass::Text)
    }

    /// Whether the next token is a name: an identifier that is no reserved word.
    pub fn at_name(&self) -> bool
        ensures { result ≡ begins spec.class (spec.name_class ∷ []) self.now }
    {
        self.at(TokenClass::Name)
    }

    /// The next token, if it is of this class.
    fn take(&mut self, class: TokenClass) -> Option<&'a Token>
        ensures { MatchOption result
            ((begins spec.class (spec.number_of class ∷ []) self.old ≡ false)
            × (self.new ≡ self.old))
            (λ t. (self.old ≡ t.now ∷ self.new) × (spec.class t.now ≡ spec.number_of class)) }
    {
        let (first, rest) = self.tokens.split_first()?;
        if !class.has(first) {
            return None;
        }
        self.tokens = rest;
        Some(first)
    }

    /// Takes the symbol. `Stop::Fault` where another token comes next, or none.
    pub fn symbol(&mut self, symbol: Symbol) -> Result<(), Stop>
        ensures { Reads (read_token spec.class (spec.symbol_class symbol)
            (λ _. tt) self.old) result self.new }
    {
        match self.take(TokenClass::Symbol(symbol)) {
            Some(_) => Ok(()),
            None => Err(Stop::Fault),
        }
    }

    /// Takes the reserved word. `Stop::Fault` where another token comes next, or none.
    pub fn word(&mut self, word: Keyword) -> Result<(), Stop>
        ensures { Reads (read_token spec.class (spec.word_class word)
            (λ _. tt) self.old) result self.new }
    {
        match self.take(TokenClass::Word(word)) {
            Some(_) => Ok(()),
            None => Err(Stop::Fault),
        }
    }

    /// The place of the symbol.
    pub fn symbol_at(&mut self, symbol: Symbol) -> Result<u32, Stop>
        ensures { Reads (read_token spec.class (spec.symbol_class symbol)
            (λ t. t.start) self.old) result self.new }
    {
        match self.take(TokenClass::Symbol(symbol)) {
            Some(token) => Ok(token.start),
            None => Err(Stop::Fault),
        }
    }

    /// The place of the reserved word, which is taken.
    pub fn word_at(&mut self, word: Keyword) -> Result<u32, Stop>
        ensures { Reads (read_token spec.class (spec.word_class word)
            (λ t. t.start) self.old) result self.new }
    {
        match self.take(TokenClass::Word(word)) {
            Some(token) => Ok(token.start),
            None => Err(Stop::Fault),
        }
    }

    /// Takes the symbol, if it comes next.
    pub fn eat_symbol(&mut self, symbol: Symbol) -> bool
        ensures { Eats (spec.symbol_class symbol) self.old result self.new }
    {
        self.take(TokenClass::Symbol(symbol)).is_some()
    }

    /// Takes the reserved word, if it comes next.
    pub fn eat_word(&mut self, word: Keyword) -> bool
        ensures { Eats (spec.word_class word) self.old result self.new }
    {
        self.take(TokenClass::Word(word)).is_some()
    }

    /// The text of a name, and its place.
    pub fn name(&mut self) -> Result<(Text, u32), Stop>
        ensures { Reads (read_token spec.class spec.name_class
            (λ t. (spec.text_in t.kind, t.start)) self.old) result self.new }
    {
        let alloc = self.alloc;
        let Some(token) = self.take(TokenClass::Name) else {
            return Err(Stop::Fault);
        };
        Ok((copied(alloc, token)?, token.start))
    }

    /// The text of a quoted text, and its place.
    pub fn chars(&mut self) -> Result<(Text, u32), Stop>
        ensures { Reads (read_token spec.class spec.chars_class
            (λ t. (spec.text_in t.kind, t.start)) self.old) result self.new }
    {
        let alloc = self.alloc;
        let Some(token) = self.take(TokenClass::Text) else {
            return Err(Stop::Fault);
        };
        Ok((copied(alloc, token)?, token.start))
    }

    /// The value of a number without a sign, and its place.
    pub fn number(&mut self) -> Result<(i64, u32), Stop>
        ensures { Reads (read_token spec.class spec.number_class
            (λ t. (spec.number_in t.kind, t.start)) self.old) result self.new }
    {
        match self.take(TokenClass::Number) {
            Some(token) => Ok((number(token), token.start)),
            None => Err(Stop::Fault),
        }
    }
}

/// A copy of the token's text. A token without one gives the empty text.
fn copied(alloc: Global, token: &Token) -> Result<Text, Memory>
    ensures { IfOk result (λ copy. copy ≡ spec.text_in token.now.kind) }
{
    match &token.kind {
        TokenKind::Name(text) | TokenKind::Chars(text) => text.copy(alloc),
        _ => Text::of(alloc, ""),
    }
}

fn number(token: &Token) -> i64
    ensures { result ≡ spec.number_in token.now.kind }
{
    match token.kind {
        TokenKind::Number(n) => n,
        _ => 0,
    }
}
