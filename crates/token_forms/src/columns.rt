//! Columns, literals and operators.

ghost use Rattle.std.specs.Prelude.{◌≡◌};
ghost use Rattle.token_forms.specs.Columns as columns;
ghost use Rattle.token_forms.specs.Forms as forms;
ghost use Rattle.token_forms.specs.Plain.{plain};
ghost use Rattle.token_forms.specs.Reads.{Reads};

use crate::cursor::{Cursor, Stop};
use crate::held::{both, pushed};
use prefsql_lexer::Symbol;
use prefsql_values::{CompareOp, List, Value};
use query_tree::{LiteralTree, NameTree};

impl Cursor<'_> {
    /// `name ["." name]`
    #[tactic(auto, unfolding(crate::specs::Columns::column))]
    pub fn column(&mut self) -> Result<NameTree, Stop>
        ensures { Reads (plain columns.column self.old) result self.new }
    {
        let (first, at) = self.name()?;
        let mut second = None;
        if self.eat_symbol(Symbol::Dot) {
            let (text, _) = self.name()?;
            second = Some(text);
        }
        Ok(NameTree { first, second, at })
    }

    /// `"(" column ")"`
    pub fn column_in_parens(&mut self) -> Result<NameTree, Stop>
        ensures { Reads (plain (forms.in_parens columns.column) self.old) result self.new }
    {
        self.symbol(Symbol::LeftParen)?;
        let column = self.column()?;
        let (column, _) = both(column, self.symbol(Symbol::RightParen))?;
        Ok(column)
    }

    /// `column { "," column }`
    #[tactic(auto, unfolding(crate::specs::Columns::columns))]
    pub fn columns(&mut self) -> Result<List<NameTree>, Stop>
        ensures { Reads (plain columns.columns self.old) result self.new }
    {
        let mut found = pushed(List::new(self.alloc), self.column())?;
        'more: while self.eat_symbol(Symbol::Comma) {
            found = pushed(found, self.column())?;
        }
        Ok(found)
    }

    /// Whether a minus or a plus comes next, with its place.
    #[tactic(auto, unfolding(crate::specs::Columns::optional_sign), using(grammar_forms::proofs::Sets::begins_more))]
    fn sign(&mut self) -> Result<Option<(bool, u32)>, Stop>
        ensures { Reads (plain columns.optional_sign self.old) result self.new }
    {
        if self.at_symbol(Symbol::Plus) {
            return Ok(Some((false, self.symbol_at(Symbol::Plus)?)));
        }
        if self.at_symbol(Symbol::Minus) {
            return Ok(Some((true, self.symbol_at(Symbol::Minus)?)));
        }
        Ok(None)
    }

    #[tactic(auto, unfolding(crate::specs::Columns::number_form))]
    fn signed_number(&mut self) -> Result<LiteralTree, Stop>
        ensures { Reads (plain columns.number_form self.old) result self.new }
    {
        let sign = self.sign()?;
        let (number, at) = self.number()?;
        Ok(signed(sign, number, at))
    }

    /// `text | ["+" | "-"] number`
    #[tactic(auto, unfolding(crate::specs::Columns::literal))]
    pub fn literal(&mut self) -> Result<LiteralTree, Stop>
        ensures { Reads (plain columns.literal self.old) result self.new }
    {
        if self.at_chars() {
            let (text, at) = self.chars()?;
            return Ok(LiteralTree {
                value: Value::Str(text),
                at,
            });
        }
        self.signed_number()
    }

    /// `literal { "," literal }`
    #[tactic(auto, unfolding(crate::specs::Columns::literals))]
    pub fn literals(&mut self) -> Result<List<LiteralTree>, Stop>
        ensures { Reads (plain columns.literals self.old) result self.new }
    {
        let mut found = pushed(List::new(self.alloc), self.literal())?;
        'more: while self.eat_symbol(Symbol::Comma) {
            found = pushed(found, self.literal())?;
        }
        Ok(found)
    }

    /// `"=" | "<>" | "<" | "<=" | ">" | ">="`
    #[tactic(auto, unfolding(crate::specs::Columns::op))]
    pub fn operator(&mut self) -> Result<CompareOp, Stop>
        ensures { Reads (plain columns.op self.old) result self.new }
    {
        if self.eat_symbol(Symbol::Equal) {
            return Ok(CompareOp::Eq);
        }
        if self.eat_symbol(Symbol::NotEqual) {
            return Ok(CompareOp::Ne);
        }
        if self.eat_symbol(Symbol::Less) {
            return Ok(CompareOp::Lt);
        }
        if self.eat_symbol(Symbol::LessEqual) {
            return Ok(CompareOp::Le);
        }
        if self.eat_symbol(Symbol::Greater) {
            return Ok(CompareOp::Gt);
        }
        self.symbol(Symbol::GreaterEqual)?;
        Ok(CompareOp::Ge)
    }
}

fn signed(sign: Option<(bool, u32)>, number: i64, at: u32) -> LiteralTree
    ensures { result ≡ columns.number_literal (sign, (number, at)) }
{
    match sign {
        None => LiteralTree {
            value: Value::Num(i128::from(number)),
            at,
        },
        Some((false, at)) => LiteralTree {
            value: Value::Num(i128::from(number)),
            at,
        },
        Some((true, at)) => LiteralTree {
            value: Value::Num(-i128::from(number)),
            at,
        },
    }
}
