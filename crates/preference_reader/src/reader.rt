//! Preferences, each read from a cursor.

ghost use Rattle.std.specs.Prelude.{◌≡◌, IfOk, Ok};
ghost use Rattle.grammar_forms.specs.Form.{rule};
ghost use Rattle.grammar_forms.specs.Reading.{with_value};
ghost use Rattle.query_grammar.specs.Rules.{preference_rule};
ghost use Rattle.token_forms.specs.Forms as forms;
ghost use Rattle.query_grammar.specs.ReadPreferences as preferences;
ghost use Rattle.query_grammar.specs.Sets as sets;
ghost use Rattle.preference_reader.specs.Sides as sides;
ghost use Rattle.query_grammar.specs.Outcome.{nested, outcome};
ghost use Rattle.token_forms.specs.Reads.{Reads};

use prefsql_lexer::{Keyword, Symbol};
use prefsql_values::{Boxed, List, Memory};
use query_tree::{BaseForm, BaseTree, EdgeTree, LiteralTree, NameTree, PrefTree, SetTree};
use std::alloc::Global;
use token_forms::{Cursor, Stop, both, pushed};

/// Reads preferences. What it reads is on the heap of `alloc`.
#[derive(Clone, Copy)]
pub struct PreferenceReader {
    pub alloc: Global,
    /// How many preferences in parentheses may still stand inside one another.
    pub depth: usize,
}

impl PreferenceReader {
    /// Whether TRIVIAL comes next, or else perhaps REGULAR.
    #[tactic(auto, unfolding(query_grammar::specs::Sets::mark), using(grammar_forms::proofs::Sets::begins_more))]
    fn mark(self, tokens: &mut Cursor<'_>) -> bool
        ensures { outcome self.depth sets.mark tokens.old ≡ Ok (result, tokens.new) }
    {
        if tokens.eat_word(Keyword::Trivial) {
            return true;
        }
        tokens.eat_word(Keyword::Regular);
        false
    }

    #[tactic(auto, unfolding(query_grammar::specs::Sets::set, token_forms::specs::Columns::literals, token_forms::specs::Columns::literal, token_forms::specs::Columns::number_form, token_forms::specs::Columns::optional_sign))]
    fn set(self, tokens: &mut Cursor<'_>) -> Result<SetTree, Stop>
        ensures { Reads (outcome self.depth sets.set tokens.old) result tokens.new }
    {
        tokens.symbol(Symbol::LeftParen)?;
        let literals = tokens.literals()?;
        let (literals, _) = both(literals, tokens.symbol(Symbol::RightParen))?;
        Ok(SetTree { literals })
    }

    #[tactic(auto, unfolding(query_grammar::specs::Sets::edge), using(query_grammar::proofs::Plain::plain_literal))]
    fn edge(self, tokens: &mut Cursor<'_>) -> Result<EdgeTree, Stop>
        ensures { Reads (outcome self.depth sets.edge tokens.old) result tokens.new }
    {
        let upper = tokens.literal()?;
        let (upper, _) = both(upper, tokens.symbol(Symbol::Greater))?;
        let (upper, lower) = both(upper, tokens.literal())?;
        Ok(EdgeTree { upper, lower })
    }

    #[tactic(auto, unfolding(query_grammar::specs::Sets::edges))]
    fn edges(self, tokens: &mut Cursor<'_>) -> Result<List<EdgeTree>, Stop>
        ensures { Reads (outcome self.depth sets.edges tokens.old) result tokens.new }
    {
        let mut found = pushed(List::new(self.alloc), self.edge(tokens))?;
        'more: while tokens.eat_symbol(Symbol::Comma) {
            found = pushed(found, self.edge(tokens))?;
        }
        Ok(found)
    }

    fn single(self, literal: LiteralTree) -> Result<SetTree, Memory>
        ensures { IfOk result (λ set. set ≡ sets.single literal) }
    {
        let mut literals = List::new(self.alloc);
        literals.push(literal)?;
        Ok(SetTree { literals })
    }

    #[tactic(auto, unfolding(query_grammar::specs::ReadPreferences::good_set), using(query_grammar::proofs::Plain::plain_literal))]
    fn good_set(self, tokens: &mut Cursor<'_>) -> Result<SetTree, Stop>
        ensures { Reads (outcome self.depth preferences.good_set tokens.old) result tokens.new }
    {
        if tokens.eat_symbol(Symbol::Equal) {
            let literal = tokens.literal()?;
            return Ok(self.single(literal)?);
        }
        tokens.word(Keyword::In)?;
        self.set(tokens)
    }

    #[tactic(auto, unfolding(query_grammar::specs::ReadPreferences::bad_set), using(query_grammar::proofs::Plain::plain_literal))]
    fn bad_set(self, tokens: &mut Cursor<'_>) -> Result<SetTree, Stop>
        ensures { Reads (outcome self.depth preferences.bad_set tokens.old) result tokens.new }
    {
        if tokens.eat_symbol(Symbol::NotEqual) {
            let literal = tokens.literal()?;
            return Ok(self.single(literal)?);
        }
        tokens.word(Keyword::Not)?;
        tokens.word(Keyword::In)?;
        self.set(tokens)
    }

    /// The set behind the column after ELSE, and what it makes with the set before ELSE.
    #[tactic(auto, using(crate::proofs::Sides::second_by_sides, token_forms::proofs::Values::value_twice))]
    fn second_set(
        self,
        tokens: &mut Cursor<'_>,
        first: SetTree,
        column: NameTree,
    ) -> Result<BaseForm, Stop>
        ensures { Reads (with_value
            (λ h. h column first) (outcome self.depth sides.second_set tokens.old)) result
            tokens.new }
    {
        if tokens.at_symbol(Symbol::Equal) || tokens.at_word(Keyword::In) {
            let ((first, column), second) = both((first, column), self.good_set(tokens))?;
            Ok(BaseForm::PosPos(first, column, second))
        } else {
            let ((first, column), second) = both((first, column), self.bad_set(tokens))?;
            Ok(BaseForm::PosNeg(first, column, second))
        }
    }

    #[tactic(auto, unfolding(query_grammar::specs::ReadPreferences::otherwise, token_forms::specs::Columns::column))]
    fn otherwise(self, tokens: &mut Cursor<'_>, first: SetTree) -> Result<BaseForm, Stop>
        ensures { Reads (with_value
            (λ h. h first) (outcome self.depth preferences.otherwise tokens.old)) result
            tokens.new }
    {
        let (first, _) = both(first, tokens.word(Keyword::Else))?;
        let (first, column) = both(first, tokens.column())?;
        self.second_set(tokens, first, column)
    }

    #[tactic(auto, using(crate::proofs::Parts::good_by_parts))]
    fn good(self, tokens: &mut Cursor<'_>) -> Result<BaseForm, Stop>
        ensures { Reads (outcome self.depth preferences.good_base tokens.old) result tokens.new }
    {
        let set = self.good_set(tokens)?;
        if tokens.at_word(Keyword::Else) {
            return self.otherwise(tokens, set);
        }
        Ok(BaseForm::Pos(set))
    }

    #[tactic(auto, unfolding(query_grammar::specs::ReadPreferences::between_base, token_forms::specs::Columns::literal, token_forms::specs::Columns::number_form, token_forms::specs::Columns::optional_sign))]
    fn between_literals(self, tokens: &mut Cursor<'_>) -> Result<BaseForm, Stop>
        ensures { Reads (outcome self.depth preferences.between_base tokens.old) result tokens.new }
    {
        tokens.word(Keyword::Between)?;
        let low = tokens.literal()?;
        let (low, _) = both(low, tokens.word(Keyword::And))?;
        let (low, high) = both(low, tokens.literal())?;
        Ok(BaseForm::Between(low, high))
    }

    #[tactic(auto, unfolding(query_grammar::specs::Sets::sets))]
    fn sets(self, tokens: &mut Cursor<'_>) -> Result<List<SetTree>, Stop>
        ensures { Reads (outcome self.depth sets.sets tokens.old) result tokens.new }
    {
        let mut found = pushed(List::new(self.alloc), self.set(tokens))?;
        'more: while tokens.eat_symbol(Symbol::Comma) {
            found = pushed(found, self.set(tokens))?;
        }
        Ok(found)
    }

    #[tactic(auto, unfolding(query_grammar::specs::ReadPreferences::others))]
    fn others(self, tokens: &mut Cursor<'_>) -> Result<List<SetTree>, Stop>
        ensures { Reads (outcome self.depth preferences.others tokens.old) result tokens.new }
    {
        tokens.word(Keyword::Others)?;
        if tokens.eat_symbol(Symbol::Comma) {
            return self.sets(tokens);
        }
        Ok(List::new(self.alloc))
    }

    /// The sets up to OTHERS, and those after it. A comma needs a second look: OTHERS or a set may
    /// follow.
    #[tactic(auto, unfolding(query_grammar::specs::ReadPreferences::sets_and_others), using(token_forms::proofs::Values::value_twice))]
    fn sets_and_others(
        self,
        tokens: &mut Cursor<'_>,
    ) -> Result<(List<SetTree>, Option<List<SetTree>>), Stop>
        ensures { Reads (outcome self.depth preferences.sets_and_others tokens.old) result
            tokens.new }
    {
        let mut found = pushed(List::new(self.alloc), self.set(tokens))?;
        'more: while tokens.eat_symbol(Symbol::Comma) {
            if tokens.at_word(Keyword::Others) {
                let (before, after) = both(found, self.others(tokens))?;
                return Ok((before, Some(after)));
            }
            found = pushed(found, self.set(tokens))?;
        }
        Ok((found, None))
    }

    fn or_none(self, sets: Option<List<SetTree>>) -> List<SetTree>
        ensures { result ≡ forms.or_none sets }
    {
        match sets {
            None => List::new(self.alloc),
            Some(sets) => sets,
        }
    }

    #[tactic(auto, unfolding(query_grammar::specs::ReadPreferences::layers_form))]
    fn layers(self, tokens: &mut Cursor<'_>) -> Result<BaseForm, Stop>
        ensures { Reads (outcome self.depth preferences.layers_form tokens.old) result tokens.new }
    {
        if tokens.eat_word(Keyword::Others) {
            tokens.symbol(Symbol::Comma)?;
            let after = self.sets(tokens)?;
            return Ok(BaseForm::Layered(List::new(self.alloc), after));
        }
        let (before, after) = self.sets_and_others(tokens)?;
        let after = self.or_none(after);
        Ok(BaseForm::Layered(before, after))
    }

    fn layers_in_parens(self, tokens: &mut Cursor<'_>) -> Result<BaseForm, Stop>
        ensures { Reads (outcome self.depth (forms.in_parens preferences.layers_form) tokens.old)
            result tokens.new }
    {
        tokens.symbol(Symbol::LeftParen)?;
        let layers = self.layers(tokens)?;
        let (layers, _) = both(layers, tokens.symbol(Symbol::RightParen))?;
        Ok(layers)
    }

    /// A form with no set of values.
    #[tactic(auto, unfolding(crate::specs::Sides::no_set_form, query_grammar::specs::ReadPreferences::between_base), using(query_grammar::proofs::Plain::plain_literal))]
    fn no_set_form(self, tokens: &mut Cursor<'_>) -> Result<BaseForm, Stop>
        ensures { Reads (outcome self.depth sides.no_set_form tokens.old) result tokens.new }
    {
        if tokens.eat_word(Keyword::Around) {
            return Ok(BaseForm::Around(tokens.literal()?));
        }
        if tokens.at_word(Keyword::Between) {
            return self.between_literals(tokens);
        }
        tokens.word(Keyword::Layered)?;
        self.layers_in_parens(tokens)
    }

    /// A form with no set of good values.
    #[tactic(auto, using(crate::proofs::Sides::no_good_by_sides))]
    fn no_good_form(self, tokens: &mut Cursor<'_>) -> Result<BaseForm, Stop>
        ensures { Reads (outcome self.depth sides.no_good_form tokens.old) result tokens.new }
    {
        if tokens.at_symbol(Symbol::NotEqual) || tokens.at_word(Keyword::Not) {
            return Ok(BaseForm::Neg(self.bad_set(tokens)?));
        }
        self.no_set_form(tokens)
    }

    #[tactic(auto, using(crate::proofs::Sides::other_by_sides))]
    fn other_form(self, tokens: &mut Cursor<'_>) -> Result<BaseForm, Stop>
        ensures { Reads (outcome self.depth preferences.other_form tokens.old) result tokens.new }
    {
        if tokens.at_symbol(Symbol::Equal) || tokens.at_word(Keyword::In) {
            return self.good(tokens);
        }
        self.no_good_form(tokens)
    }

    #[tactic(auto, unfolding(query_grammar::specs::ReadPreferences::graph_form))]
    fn graph(self, tokens: &mut Cursor<'_>) -> Result<List<EdgeTree>, Stop>
        ensures { Reads (outcome self.depth preferences.graph_form tokens.old) result tokens.new }
    {
        tokens.word(Keyword::Explicit)?;
        tokens.symbol(Symbol::LeftParen)?;
        let edges = self.edges(tokens)?;
        let (edges, _) = both(edges, tokens.symbol(Symbol::RightParen))?;
        tokens.eat_word(Keyword::Trivial);
        Ok(edges)
    }

    #[tactic(auto, using(crate::proofs::Parts::column_base_by_parts, query_grammar::proofs::Plain::plain_column))]
    fn column_base(self, tokens: &mut Cursor<'_>) -> Result<BaseTree, Stop>
        ensures { Reads (outcome self.depth preferences.column_base tokens.old) result tokens.new }
    {
        let column = tokens.column()?;
        let at = column.at;
        if tokens.at_word(Keyword::Explicit) {
            let (column, edges) = both(column, self.graph(tokens))?;
            return Ok(BaseTree {
                column,
                form: BaseForm::Explicit(edges),
                trivial: true,
                at,
            });
        }
        let (column, form) = both(column, self.other_form(tokens))?;
        let trivial = self.mark(tokens);
        Ok(BaseTree {
            column,
            form,
            trivial,
            at,
        })
    }

    #[tactic(auto, unfolding(token_forms::specs::Columns::column, query_grammar::specs::ReadPreferences::lowest))]
    fn lowest(self, tokens: &mut Cursor<'_>) -> Result<BaseTree, Stop>
        ensures { Reads (outcome self.depth preferences.lowest tokens.old) result tokens.new }
    {
        let at = tokens.word_at(Keyword::Lowest)?;
        let column = tokens.column_in_parens()?;
        let trivial = self.mark(tokens);
        Ok(BaseTree {
            column,
            form: BaseForm::Lowest,
            trivial,
            at,
        })
    }

    #[tactic(auto, unfolding(token_forms::specs::Columns::column, query_grammar::specs::ReadPreferences::highest))]
    fn highest(self, tokens: &mut Cursor<'_>) -> Result<BaseTree, Stop>
        ensures { Reads (outcome self.depth preferences.highest tokens.old) result tokens.new }
    {
        let at = tokens.word_at(Keyword::Highest)?;
        let column = tokens.column_in_parens()?;
        let trivial = self.mark(tokens);
        Ok(BaseTree {
            column,
            form: BaseForm::Highest,
            trivial,
            at,
        })
    }

    #[tactic(auto, unfolding(query_grammar::specs::ReadPreferences::any_base, query_grammar::specs::ReadPreferences::lowest, query_grammar::specs::ReadPreferences::highest))]
    fn base(self, tokens: &mut Cursor<'_>) -> Result<BaseTree, Stop>
        ensures { Reads (outcome self.depth preferences.any_base tokens.old) result tokens.new }
    {
        if tokens.at_word(Keyword::Lowest) {
            return self.lowest(tokens);
        }
        if tokens.at_word(Keyword::Highest) {
            return self.highest(tokens);
        }
        self.column_base(tokens)
    }

    /// A preference in parentheses.
    #[cycle(preference)]
    fn nested_preference(self, tokens: &mut Cursor<'_>) -> Result<PrefTree, Stop>
        ensures { Reads (nested self.depth preference_rule tokens.old) result tokens.new }
    {
        if self.depth == 0 {
            return Err(Stop::Fault);
        }
        let inner = PreferenceReader {
            alloc: self.alloc,
            depth: self.depth - 1,
        };
        inner.preference(tokens)
    }

    #[cycle(preference)]
    fn preference_in_parens(self, tokens: &mut Cursor<'_>) -> Result<PrefTree, Stop>
        ensures { Reads (outcome self.depth (forms.in_parens (rule preference_rule)) tokens.old)
            result tokens.new }
    {
        tokens.symbol(Symbol::LeftParen)?;
        let inner = self.nested_preference(tokens)?;
        let (inner, _) = both(inner, tokens.symbol(Symbol::RightParen))?;
        Ok(inner)
    }

    #[tactic(auto, unfolding(query_grammar::specs::ReadPreferences::primary))]
    #[cycle(preference)]
    fn primary(self, tokens: &mut Cursor<'_>) -> Result<PrefTree, Stop>
        ensures { Reads (outcome self.depth preferences.primary tokens.old) result tokens.new }
    {
        if tokens.at_symbol(Symbol::LeftParen) {
            return self.preference_in_parens(tokens);
        }
        if tokens.eat_word(Keyword::Dual) {
            let inner = self.preference_in_parens(tokens)?;
            return Ok(PrefTree::Dual(Boxed::new(self.alloc, inner)?));
        }
        Ok(PrefTree::Base(self.base(tokens)?))
    }

    #[tactic(auto, unfolding(query_grammar::specs::ReadPreferences::primaries))]
    #[cycle(preference)]
    fn primaries(self, tokens: &mut Cursor<'_>) -> Result<List<PrefTree>, Stop>
        ensures { Reads (outcome self.depth preferences.primaries tokens.old) result tokens.new }
    {
        let mut found = pushed(List::new(self.alloc), self.primary(tokens))?;
        'more: while tokens.eat_word(Keyword::And) {
            found = pushed(found, self.primary(tokens))?;
        }
        Ok(found)
    }

    #[tactic(auto, unfolding(query_grammar::specs::ReadPreferences::pareto))]
    #[cycle(preference)]
    fn pareto(self, tokens: &mut Cursor<'_>) -> Result<PrefTree, Stop>
        ensures { Reads (outcome self.depth preferences.pareto tokens.old) result tokens.new }
    {
        Ok(equal_parts(self.primaries(tokens)?))
    }

    #[tactic(auto, unfolding(query_grammar::specs::ReadPreferences::cascade))]
    #[cycle(preference)]
    fn cascade(self, tokens: &mut Cursor<'_>) -> Result<List<PrefTree>, Stop>
        ensures { Reads (outcome self.depth preferences.cascade tokens.old) result tokens.new }
    {
        let mut found = pushed(List::new(self.alloc), self.pareto(tokens))?;
        'more: while tokens.eat_word(Keyword::Cascade) {
            found = pushed(found, self.pareto(tokens))?;
        }
        Ok(found)
    }

    /// A preference.
    #[tactic(auto, unfolding(query_grammar::specs::ReadPreferences::preference))]
    #[cycle(preference)]
    pub fn preference(self, tokens: &mut Cursor<'_>) -> Result<PrefTree, Stop>
        ensures { Reads (outcome self.depth preferences.preference tokens.old) result tokens.new }
    {
        Ok(ordered_parts(self.cascade(tokens)?))
    }
}

/// A chain of one part is that part.
fn equal_parts(parts: List<PrefTree>) -> PrefTree
    ensures { result ≡ forms.chain PrefTree.Pareto parts }
{
    let mut parts = parts.into_vec();
    if parts.len() == 1 {
        parts.remove(0)
    } else {
        PrefTree::Pareto(List::of(parts))
    }
}

fn ordered_parts(parts: List<PrefTree>) -> PrefTree
    ensures { result ≡ forms.chain PrefTree.Prior parts }
{
    let mut parts = parts.into_vec();
    if parts.len() == 1 {
        parts.remove(0)
    } else {
        PrefTree::Prior(List::of(parts))
    }
}
