//! Conditions.

ghost use Rattle.std.specs.Prelude.{◌≡◌};
ghost use Rattle.grammar_forms.specs.Reading.{with_value};
ghost use Rattle.token_forms.specs.Forms as forms;
ghost use Rattle.token_forms.specs.Reads.{Reads};
ghost use Rattle.sql_text.specs.Grammar as grammar;
ghost use Rattle.sql_parser.specs.ReadGrammar as read_grammar;
ghost use Rattle.sql_parser.specs.Outcome.{outcome, nested};

use crate::reader::Reader;
use prefsql_lexer::{Keyword, Symbol};
use prefsql_values::{Boxed, List};
use sql_text::{NamedCond, NamedScalar};
use token_forms::{Cursor, Stop, both, pushed};

impl Reader {
    /// `sum { "," sum }`
    #[tactic(auto, unfolding(sql_text::specs::Grammar::sums))]
    #[cycle(query)]
    fn sums(self, tokens: &mut Cursor<'_>) -> Result<List<NamedScalar>, Stop>
        ensures { Reads (outcome self.depth grammar.sums tokens.old) result tokens.new }
    {
        let mut found = pushed(List::new(self.alloc), self.sum(tokens))?;
        'more: while tokens.eat_symbol(Symbol::Comma) {
            found = pushed(found, self.sum(tokens))?;
        }
        Ok(found)
    }

    #[cycle(query)]
    fn sums_in_parens(self, tokens: &mut Cursor<'_>) -> Result<List<NamedScalar>, Stop>
        ensures { Reads (outcome self.depth (forms.in_parens grammar.sums) tokens.old) result
            tokens.new }
    {
        tokens.symbol(Symbol::LeftParen)?;
        let sums = self.sums(tokens)?;
        let (sums, _) = both(sums, tokens.symbol(Symbol::RightParen))?;
        Ok(sums)
    }

    /// `BETWEEN sum AND sum`
    #[tactic(auto, unfolding(sql_text::specs::Grammar::between))]
    #[cycle(query)]
    fn between(
        self,
        tokens: &mut Cursor<'_>,
        negated: bool,
        left: NamedScalar,
    ) -> Result<NamedCond, Stop>
        ensures { Reads (with_value (λ h. h negated left)
            (outcome self.depth grammar.between tokens.old)) result tokens.new }
    {
        let (left, _) = both(left, tokens.word(Keyword::Between))?;
        let (left, low) = both(left, self.sum(tokens))?;
        let (sides, _) = both((left, low), tokens.word(Keyword::And))?;
        let ((left, low), high) = both(sides, self.sum(tokens))?;
        Ok(NamedCond::Between(negated, left, low, high))
    }

    /// `IN "(" sum { "," sum } ")"`
    #[tactic(auto, unfolding(sql_text::specs::Grammar::member))]
    #[cycle(query)]
    fn member(
        self,
        tokens: &mut Cursor<'_>,
        negated: bool,
        left: NamedScalar,
    ) -> Result<NamedCond, Stop>
        ensures { Reads (with_value (λ h. h negated left)
            (outcome self.depth grammar.member tokens.old)) result tokens.new }
    {
        let (left, _) = both(left, tokens.word(Keyword::In))?;
        let (left, sums) = both(left, self.sums_in_parens(tokens))?;
        Ok(NamedCond::OneOf(negated, left, sums))
    }

    /// `IS [NOT] NULL`
    #[tactic(auto, unfolding(sql_text::specs::Grammar::null_test, token_forms::specs::Phrases::negation))]
    fn null_test(self, tokens: &mut Cursor<'_>, left: NamedScalar) -> Result<NamedCond, Stop>
        ensures { Reads (with_value (λ h. h left)
            (outcome self.depth grammar.null_test tokens.old)) result tokens.new }
    {
        let (left, _) = both(left, tokens.word(Keyword::Is))?;
        let negated = tokens.negation();
        let (left, _) = both(left, tokens.word(Keyword::Null))?;
        Ok(NamedCond::IsNull(negated, left))
    }

    /// `op sum`
    #[tactic(auto, unfolding(sql_text::specs::Grammar::comparison), using(crate::proofs::Plain::plain_op))]
    #[cycle(query)]
    fn comparison(self, tokens: &mut Cursor<'_>, left: NamedScalar) -> Result<NamedCond, Stop>
        ensures { Reads (with_value (λ h. h left)
            (outcome self.depth grammar.comparison tokens.old)) result tokens.new }
    {
        let (left, op) = both(left, tokens.operator())?;
        let (left, right) = both(left, self.sum(tokens))?;
        Ok(NamedCond::Compare(op, left, right))
    }

    /// `[NOT] ( BETWEEN .. | IN .. )`
    #[tactic(auto, unfolding(crate::specs::ReadGrammar::negatable, sql_text::specs::Grammar::between), using(crate::proofs::Plain::plain_negation, token_forms::proofs::Values::value_twice))]
    #[cycle(query)]
    fn negatable(self, tokens: &mut Cursor<'_>, left: NamedScalar) -> Result<NamedCond, Stop>
        ensures { Reads (with_value (λ h. h left)
            (outcome self.depth read_grammar.negatable tokens.old)) result tokens.new }
    {
        let negated = tokens.negation();
        if tokens.at_word(Keyword::Between) {
            self.between(tokens, negated, left)
        } else {
            self.member(tokens, negated, left)
        }
    }

    /// What stands after the left sum of a test.
    #[tactic(auto, unfolding(crate::specs::ReadGrammar::rest_form, sql_text::specs::Grammar::null_test, crate::specs::ReadGrammar::negatable, token_forms::specs::Phrases::negation, sql_text::specs::Grammar::between, sql_text::specs::Grammar::member), using(grammar_forms::proofs::Sets::begins_more))]
    #[cycle(query)]
    fn rest(self, tokens: &mut Cursor<'_>, left: NamedScalar) -> Result<NamedCond, Stop>
        ensures { Reads (with_value (λ h. h left)
            (outcome self.depth read_grammar.rest_form tokens.old)) result tokens.new }
    {
        if tokens.at_word(Keyword::Is) {
            return self.null_test(tokens, left);
        }
        if tokens.at_word(Keyword::Not)
            || tokens.at_word(Keyword::Between)
            || tokens.at_word(Keyword::In)
        {
            return self.negatable(tokens, left);
        }
        self.comparison(tokens, left)
    }

    /// A condition in parentheses.
    #[cycle(query)]
    fn nested_condition(self, tokens: &mut Cursor<'_>) -> Result<NamedCond, Stop>
        ensures { Reads (nested self.depth grammar.condition_rule tokens.old) result tokens.new }
    {
        if self.depth == 0 {
            return Err(Stop::Fault);
        }
        let inner = Reader {
            alloc: self.alloc,
            depth: self.depth - 1,
        };
        inner.condition(tokens)
    }

    /// `EXISTS "(" query ")"`
    #[tactic(auto, unfolding(sql_text::specs::Grammar::exists))]
    #[cycle(query)]
    fn exists(self, tokens: &mut Cursor<'_>) -> Result<NamedCond, Stop>
        ensures { Reads (outcome self.depth grammar.exists tokens.old) result tokens.new }
    {
        tokens.word(Keyword::Exists)?;
        let query = self.query_in_parens(tokens)?;
        Ok(NamedCond::Exists(query))
    }

    /// `sum rest`
    #[tactic(auto, unfolding(crate::specs::ReadGrammar::compared), using(token_forms::proofs::Values::value_twice))]
    #[cycle(query)]
    fn compared(self, tokens: &mut Cursor<'_>) -> Result<NamedCond, Stop>
        ensures { Reads (outcome self.depth read_grammar.compared tokens.old) result tokens.new }
    {
        let left = self.sum(tokens)?;
        self.rest(tokens, left)
    }

    /// `"(" cond ")" | sum rest | EXISTS "(" query ")"`
    #[tactic(auto, unfolding(crate::specs::ReadGrammar::test_form), using(token_forms::proofs::Values::value_twice))]
    #[cycle(query)]
    fn test(self, tokens: &mut Cursor<'_>) -> Result<NamedCond, Stop>
        ensures { Reads (outcome self.depth read_grammar.test_form tokens.old) result tokens.new }
    {
        if tokens.eat_symbol(Symbol::LeftParen) {
            let inner = self.nested_condition(tokens)?;
            let (inner, _) = both(inner, tokens.symbol(Symbol::RightParen))?;
            return Ok(inner);
        }
        if tokens.at_word(Keyword::Exists) {
            return self.exists(tokens);
        }
        self.compared(tokens)
    }

    /// `[NOT] test`
    #[tactic(auto, unfolding(crate::specs::ReadGrammar::negated), using(crate::proofs::Plain::plain_negation))]
    #[cycle(query)]
    fn negated(self, tokens: &mut Cursor<'_>) -> Result<NamedCond, Stop>
        ensures { Reads (outcome self.depth read_grammar.negated tokens.old) result tokens.new }
    {
        let negated = tokens.negation();
        let test = self.test(tokens)?;
        if negated {
            Ok(NamedCond::Not(Boxed::new(self.alloc, test)?))
        } else {
            Ok(test)
        }
    }

    #[tactic(auto, unfolding(crate::specs::ReadGrammar::conjuncts))]
    #[cycle(query)]
    fn conjuncts(self, tokens: &mut Cursor<'_>) -> Result<List<NamedCond>, Stop>
        ensures { Reads (outcome self.depth read_grammar.conjuncts tokens.old) result tokens.new }
    {
        let mut found = pushed(List::new(self.alloc), self.negated(tokens))?;
        'more: while tokens.eat_word(Keyword::And) {
            found = pushed(found, self.negated(tokens))?;
        }
        Ok(found)
    }

    #[tactic(auto, unfolding(crate::specs::ReadGrammar::conjunction))]
    #[cycle(query)]
    fn conjunction(self, tokens: &mut Cursor<'_>) -> Result<NamedCond, Stop>
        ensures { Reads (outcome self.depth read_grammar.conjunction tokens.old) result tokens.new }
    {
        Ok(conjoined(self.conjuncts(tokens)?))
    }

    #[tactic(auto, unfolding(crate::specs::ReadGrammar::disjuncts))]
    #[cycle(query)]
    fn disjuncts(self, tokens: &mut Cursor<'_>) -> Result<List<NamedCond>, Stop>
        ensures { Reads (outcome self.depth read_grammar.disjuncts tokens.old) result tokens.new }
    {
        let mut found = pushed(List::new(self.alloc), self.conjunction(tokens))?;
        'more: while tokens.eat_word(Keyword::Or) {
            found = pushed(found, self.conjunction(tokens))?;
        }
        Ok(found)
    }

    /// A condition.
    #[tactic(auto, unfolding(crate::specs::ReadGrammar::condition))]
    #[cycle(query)]
    pub(crate) fn condition(self, tokens: &mut Cursor<'_>) -> Result<NamedCond, Stop>
        ensures { Reads (outcome self.depth read_grammar.condition tokens.old) result tokens.new }
    {
        Ok(disjoined(self.disjuncts(tokens)?))
    }
}

/// A chain of one part is that part.
fn conjoined(parts: List<NamedCond>) -> NamedCond
    ensures { result ≡ forms.chain NamedCond.And parts }
{
    let mut parts = parts.into_vec();
    if parts.len() == 1 {
        parts.remove(0)
    } else {
        NamedCond::And(List::of(parts))
    }
}

fn disjoined(parts: List<NamedCond>) -> NamedCond
    ensures { result ≡ forms.chain NamedCond.Or parts }
{
    let mut parts = parts.into_vec();
    if parts.len() == 1 {
        parts.remove(0)
    } else {
        NamedCond::Or(List::of(parts))
    }
}
