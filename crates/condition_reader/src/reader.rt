//! Conditions, each read from a cursor.

ghost use Rattle.std.specs.Prelude.{◌≡◌};
ghost use Rattle.grammar_forms.specs.Reading.{with_value};
ghost use Rattle.query_grammar.specs.Rules.{condition_rule};
ghost use Rattle.token_forms.specs.Forms as forms;
ghost use Rattle.query_grammar.specs.ReadConditions as conditions;
ghost use Rattle.query_grammar.specs.Scalars as scalars;
ghost use Rattle.query_grammar.specs.Outcome.{outcome, nested};
ghost use Rattle.token_forms.specs.Reads.{Reads};

use prefsql_lexer::{Keyword, Symbol};
use prefsql_values::{Boxed, List};
use query_tree::{CondTree, ScalarTree};
use std::alloc::Global;
use token_forms::{Cursor, Stop, both, pushed};

/// Reads conditions, and what they compare. What it reads is on the heap of `alloc`.
#[derive(Clone, Copy)]
pub struct ConditionReader {
    pub alloc: Global,
    /// How many conditions in parentheses may still stand inside one another.
    pub depth: usize,
    /// Whether they may speak of LEVEL, DISTANCE and TOP.
    pub qualities: bool,
}

impl ConditionReader {
    /// `LEVEL "(" column ")"`
    #[tactic(auto, unfolding(token_forms::specs::Columns::column, query_grammar::specs::Scalars::level))]
    pub fn level(self, tokens: &mut Cursor<'_>) -> Result<ScalarTree, Stop>
        ensures { Reads (outcome self.depth scalars.level tokens.old) result tokens.new }
    {
        let at = tokens.word_at(Keyword::Level)?;
        Ok(ScalarTree::Level(tokens.column_in_parens()?, at))
    }

    /// `DISTANCE "(" column ")"`
    #[tactic(auto, unfolding(token_forms::specs::Columns::column, query_grammar::specs::Scalars::distance))]
    pub fn distance(self, tokens: &mut Cursor<'_>) -> Result<ScalarTree, Stop>
        ensures { Reads (outcome self.depth scalars.distance tokens.old) result tokens.new }
    {
        let at = tokens.word_at(Keyword::Distance)?;
        Ok(ScalarTree::Distance(tokens.column_in_parens()?, at))
    }

    #[tactic(auto, unfolding(query_grammar::specs::Scalars::plain_scalar, token_forms::specs::Columns::column), using(query_grammar::proofs::Plain::plain_column, query_grammar::proofs::Plain::plain_literal))]
    fn plain_scalar(self, tokens: &mut Cursor<'_>) -> Result<ScalarTree, Stop>
        ensures { Reads (outcome self.depth scalars.plain_scalar tokens.old) result tokens.new }
    {
        if tokens.at_name() {
            Ok(ScalarTree::Column(tokens.column()?))
        } else {
            Ok(ScalarTree::Literal(tokens.literal()?))
        }
    }

    #[tactic(auto, unfolding(query_grammar::specs::Scalars::scalar, query_grammar::specs::Scalars::level, query_grammar::specs::Scalars::distance))]
    fn scalar(self, tokens: &mut Cursor<'_>) -> Result<ScalarTree, Stop>
        ensures { Reads (outcome self.depth (scalars.scalar self.qualities) tokens.old) result
            tokens.new }
    {
        if self.qualities {
            if tokens.at_word(Keyword::Level) {
                return self.level(tokens);
            }
            if tokens.at_word(Keyword::Distance) {
                return self.distance(tokens);
            }
        }
        self.plain_scalar(tokens)
    }

    #[tactic(auto, unfolding(query_grammar::specs::Scalars::scalars))]
    fn scalars(self, tokens: &mut Cursor<'_>) -> Result<List<ScalarTree>, Stop>
        ensures { Reads (outcome self.depth (scalars.scalars self.qualities) tokens.old) result
            tokens.new }
    {
        let mut found = pushed(List::new(self.alloc), self.scalar(tokens))?;
        'more: while tokens.eat_symbol(Symbol::Comma) {
            found = pushed(found, self.scalar(tokens))?;
        }
        Ok(found)
    }

    fn scalars_in_parens(self, tokens: &mut Cursor<'_>) -> Result<List<ScalarTree>, Stop>
        ensures { Reads (outcome self.depth (forms.in_parens (scalars.scalars self.qualities))
            tokens.old) result tokens.new }
    {
        tokens.symbol(Symbol::LeftParen)?;
        let scalars = self.scalars(tokens)?;
        let (scalars, _) = both(scalars, tokens.symbol(Symbol::RightParen))?;
        Ok(scalars)
    }

    #[tactic(auto, unfolding(query_grammar::specs::Scalars::between))]
    fn between(
        self,
        tokens: &mut Cursor<'_>,
        negated: bool,
        left: ScalarTree,
    ) -> Result<CondTree, Stop>
        ensures { Reads (with_value
            (λ h. h negated left) (outcome self.depth (scalars.between self.qualities) tokens.old))
            result tokens.new }
    {
        let (left, _) = both(left, tokens.word(Keyword::Between))?;
        let (left, low) = both(left, self.scalar(tokens))?;
        let (sides, _) = both((left, low), tokens.word(Keyword::And))?;
        let ((left, low), high) = both(sides, self.scalar(tokens))?;
        Ok(CondTree::Between(negated, left, low, high))
    }

    #[tactic(auto, unfolding(query_grammar::specs::Scalars::member))]
    fn member(
        self,
        tokens: &mut Cursor<'_>,
        negated: bool,
        left: ScalarTree,
    ) -> Result<CondTree, Stop>
        ensures { Reads (with_value
            (λ h. h negated left) (outcome self.depth (scalars.member self.qualities) tokens.old))
            result tokens.new }
    {
        let (left, _) = both(left, tokens.word(Keyword::In))?;
        let (left, items) = both(left, self.scalars_in_parens(tokens))?;
        Ok(CondTree::OneOf(negated, left, items))
    }

    #[tactic(auto, unfolding(query_grammar::specs::Scalars::null_test, token_forms::specs::Phrases::negation))]
    fn null_test(self, tokens: &mut Cursor<'_>, left: ScalarTree) -> Result<CondTree, Stop>
        ensures { Reads (with_value
            (λ h. h left) (outcome self.depth scalars.null_test tokens.old)) result tokens.new }
    {
        let (left, _) = both(left, tokens.word(Keyword::Is))?;
        let negated = tokens.negation();
        let (left, _) = both(left, tokens.word(Keyword::Null))?;
        Ok(CondTree::IsNull(negated, left))
    }

    #[tactic(auto, unfolding(query_grammar::specs::Scalars::comparison), using(query_grammar::proofs::Plain::plain_op))]
    fn comparison(self, tokens: &mut Cursor<'_>, left: ScalarTree) -> Result<CondTree, Stop>
        ensures { Reads (with_value
            (λ h. h left) (outcome self.depth (scalars.comparison self.qualities) tokens.old))
            result tokens.new }
    {
        let (left, op) = both(left, tokens.operator())?;
        let (left, right) = both(left, self.scalar(tokens))?;
        Ok(CondTree::Compare(op, left, right))
    }

    #[tactic(auto, unfolding(query_grammar::specs::ReadConditions::negatable, query_grammar::specs::Scalars::between), using(query_grammar::proofs::Plain::plain_negation, token_forms::proofs::Values::value_twice))]
    fn negatable(self, tokens: &mut Cursor<'_>, left: ScalarTree) -> Result<CondTree, Stop>
        ensures { Reads (with_value
            (λ h. h left) (outcome self.depth (conditions.negatable self.qualities) tokens.old))
            result tokens.new }
    {
        let negated = tokens.negation();
        if tokens.at_word(Keyword::Between) {
            self.between(tokens, negated, left)
        } else {
            self.member(tokens, negated, left)
        }
    }

    #[tactic(auto, unfolding(query_grammar::specs::ReadConditions::rest_form, query_grammar::specs::Scalars::null_test, query_grammar::specs::ReadConditions::negatable, token_forms::specs::Phrases::negation, query_grammar::specs::Scalars::between, query_grammar::specs::Scalars::member), using(grammar_forms::proofs::Sets::begins_more))]
    fn rest(self, tokens: &mut Cursor<'_>, left: ScalarTree) -> Result<CondTree, Stop>
        ensures { Reads (with_value
            (λ h. h left) (outcome self.depth (conditions.rest_form self.qualities) tokens.old))
            result tokens.new }
    {
        if tokens.at_word(Keyword::Is) {
            return self.null_test(tokens, left);
        }
        if tokens.at_word(Keyword::Not)
            || tokens.at_word(Keyword::Between)
            || tokens.at_word(Keyword::In)
        {
            return self.negatable(tokens, left);
        }
        self.comparison(tokens, left)
    }

    /// A condition in parentheses.
    #[cycle(condition)]
    fn nested_condition(self, tokens: &mut Cursor<'_>) -> Result<CondTree, Stop>
        ensures { Reads (nested self.depth (condition_rule self.qualities) tokens.old) result
            tokens.new }
    {
        if self.depth == 0 {
            return Err(Stop::Fault);
        }
        let inner = ConditionReader {
            alloc: self.alloc,
            depth: self.depth - 1,
            qualities: self.qualities,
        };
        inner.condition(tokens)
    }

    #[tactic(auto, unfolding(query_grammar::specs::ReadConditions::plain_test), using(token_forms::proofs::Values::value_twice))]
    #[cycle(condition)]
    fn plain_test(self, tokens: &mut Cursor<'_>) -> Result<CondTree, Stop>
        ensures { Reads (outcome self.depth (conditions.plain_test self.qualities) tokens.old)
            result tokens.new }
    {
        if tokens.eat_symbol(Symbol::LeftParen) {
            let inner = self.nested_condition(tokens)?;
            let (inner, _) = both(inner, tokens.symbol(Symbol::RightParen))?;
            return Ok(inner);
        }
        let left = self.scalar(tokens)?;
        self.rest(tokens, left)
    }

    #[tactic(auto, unfolding(token_forms::specs::Columns::column, query_grammar::specs::ReadConditions::test_form))]
    #[cycle(condition)]
    fn test(self, tokens: &mut Cursor<'_>) -> Result<CondTree, Stop>
        ensures { Reads (outcome self.depth (conditions.test_form self.qualities) tokens.old) result
            tokens.new }
    {
        if self.qualities && tokens.eat_word(Keyword::Top) {
            return Ok(CondTree::Top(tokens.column_in_parens()?));
        }
        self.plain_test(tokens)
    }

    #[tactic(auto, unfolding(query_grammar::specs::ReadConditions::negated), using(query_grammar::proofs::Plain::plain_negation))]
    #[cycle(condition)]
    fn negated(self, tokens: &mut Cursor<'_>) -> Result<CondTree, Stop>
        ensures { Reads (outcome self.depth (conditions.negated self.qualities) tokens.old) result
            tokens.new }
    {
        let negated = tokens.negation();
        let test = self.test(tokens)?;
        if negated {
            Ok(CondTree::Not(Boxed::new(self.alloc, test)?))
        } else {
            Ok(test)
        }
    }

    #[tactic(auto, unfolding(query_grammar::specs::ReadConditions::conjuncts))]
    #[cycle(condition)]
    fn conjuncts(self, tokens: &mut Cursor<'_>) -> Result<List<CondTree>, Stop>
        ensures { Reads (outcome self.depth (conditions.conjuncts self.qualities) tokens.old) result
            tokens.new }
    {
        let mut found = pushed(List::new(self.alloc), self.negated(tokens))?;
        'more: while tokens.eat_word(Keyword::And) {
            found = pushed(found, self.negated(tokens))?;
        }
        Ok(found)
    }

    #[tactic(auto, unfolding(query_grammar::specs::ReadConditions::conjunction))]
    #[cycle(condition)]
    fn conjunction(self, tokens: &mut Cursor<'_>) -> Result<CondTree, Stop>
        ensures { Reads (outcome self.depth (conditions.conjunction self.qualities) tokens.old)
            result tokens.new }
    {
        Ok(conjoined(self.conjuncts(tokens)?))
    }

    #[tactic(auto, unfolding(query_grammar::specs::ReadConditions::disjuncts))]
    #[cycle(condition)]
    fn disjuncts(self, tokens: &mut Cursor<'_>) -> Result<List<CondTree>, Stop>
        ensures { Reads (outcome self.depth (conditions.disjuncts self.qualities) tokens.old) result
            tokens.new }
    {
        let mut found = pushed(List::new(self.alloc), self.conjunction(tokens))?;
        'more: while tokens.eat_word(Keyword::Or) {
            found = pushed(found, self.conjunction(tokens))?;
        }
        Ok(found)
    }

    /// A condition.
    #[tactic(auto, unfolding(query_grammar::specs::ReadConditions::condition))]
    #[cycle(condition)]
    pub fn condition(self, tokens: &mut Cursor<'_>) -> Result<CondTree, Stop>
        ensures { Reads (outcome self.depth (conditions.condition self.qualities) tokens.old) result
            tokens.new }
    {
        Ok(disjoined(self.disjuncts(tokens)?))
    }
}

/// A chain of one part is that part.
fn conjoined(parts: List<CondTree>) -> CondTree
    ensures { result ≡ forms.chain CondTree.And parts }
{
    let mut parts = parts.into_vec();
    if parts.len() == 1 {
        parts.remove(0)
    } else {
        CondTree::And(List::of(parts))
    }
}

fn disjoined(parts: List<CondTree>) -> CondTree
    ensures { result ≡ forms.chain CondTree.Or parts }
{
    let mut parts = parts.into_vec();
    if parts.len() == 1 {
        parts.remove(0)
    } else {
        CondTree::Or(List::of(parts))
    }
}
