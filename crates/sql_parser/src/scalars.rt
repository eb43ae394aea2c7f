//! Sums and their terms, and CASE.

ghost use Rattle.std.specs.Prelude.{◌≡◌, [], ◌∷◌, IfOk};
ghost use Rattle.grammar_forms.specs.Reading.{begins};
ghost use Rattle.prefsql_lexer.specs.declared.token.Symbol.TheVariants.{Plus, Minus};
ghost use Rattle.token_forms.specs.Classes.{class, symbol_class};
ghost use Rattle.token_forms.specs.Reads.{Reads};
ghost use Rattle.sql_text.specs.Grammar as grammar;
ghost use Rattle.sql_parser.specs.ReadGrammar as read_grammar;
ghost use Rattle.sql_parser.specs.Outcome.{outcome, nested};

use crate::reader::Reader;
use prefsql_lexer::{Keyword, Symbol};
use prefsql_values::{Boxed, List, Memory};
use sql_text::{NamedScalar, NamedTerm, NamedWhen};
use std::alloc::Global;
use token_forms::{Cursor, Stop, both, pushed};

/// The WHENs of a CASE, and the value of ELSE, if it is written.
pub(crate) type Results = (List<NamedWhen>, Option<Boxed<NamedScalar>>);

impl Reader {
    /// `"+" | "-"`, whether it is a minus.
    #[tactic(auto, unfolding(sql_text::specs::Grammar::sum_sign))]
    fn sum_sign(self, tokens: &mut Cursor<'_>) -> Result<bool, Stop>
        ensures { Reads (outcome self.depth grammar.sum_sign tokens.old) result tokens.new }
    {
        if tokens.eat_symbol(Symbol::Plus) {
            return Ok(false);
        }
        tokens.symbol(Symbol::Minus)?;
        Ok(true)
    }

    /// `column | literal | case`
    #[cycle(query)]
    fn factor(self, tokens: &mut Cursor<'_>) -> Result<NamedScalar, Stop>
        ensures { Reads (outcome self.depth grammar.factor tokens.old) result tokens.new }
    {
        if tokens.at_name() {
            return Ok(NamedScalar::Column(tokens.column()?));
        }
        if tokens.at_word(Keyword::Case) {
            return self.case(tokens);
        }
        Ok(NamedScalar::Literal(tokens.literal()?))
    }

    /// `CASE results END`
    #[tactic(auto, unfolding(sql_text::specs::Grammar::case))]
    #[cycle(query)]
    fn case(self, tokens: &mut Cursor<'_>) -> Result<NamedScalar, Stop>
        ensures { Reads (outcome self.depth grammar.case tokens.old) result tokens.new }
    {
        let at = tokens.word_at(Keyword::Case)?;
        let results = self.nested_results(tokens)?;
        let ((whens, otherwise), _) = both(results, tokens.word(Keyword::End))?;
        Ok(NamedScalar::Case(at, whens, otherwise))
    }

    /// `( "+" | "-" ) factor`
    #[tactic(auto, unfolding(sql_text::specs::Grammar::later_term))]
    #[cycle(query)]
    fn later_term(self, tokens: &mut Cursor<'_>) -> Result<NamedTerm, Stop>
        ensures { Reads (outcome self.depth grammar.later_term tokens.old) result tokens.new }
    {
        let minus = self.sum_sign(tokens)?;
        let scalar = self.factor(tokens)?;
        Ok(NamedTerm { minus, scalar })
    }

    /// `{ ( "+" | "-" ) factor }`
    #[tactic(auto, unfolding(crate::specs::ReadGrammar::later_terms))]
    #[cycle(query)]
    fn later_terms(self, tokens: &mut Cursor<'_>) -> Result<List<NamedTerm>, Stop>
        ensures { Reads (outcome self.depth read_grammar.later_terms tokens.old) result tokens.new }
    {
        let mut found = List::new(self.alloc);
        'more: while at_sign(tokens) {
            found = pushed(found, self.later_term(tokens))?;
        }
        Ok(found)
    }

    /// `factor { ( "+" | "-" ) factor }`
    #[tactic(auto, unfolding(sql_text::specs::Grammar::sum, crate::specs::ReadGrammar::later_terms))]
    #[cycle(query)]
    pub(crate) fn sum(self, tokens: &mut Cursor<'_>) -> Result<NamedScalar, Stop>
        ensures { Reads (outcome self.depth grammar.sum tokens.old) result tokens.new }
    {
        let first = self.factor(tokens)?;
        let (first, more) = both(first, self.later_terms(tokens))?;
        Ok(sum_of(first, more)?)
    }

    /// `WHEN cond THEN sum`
    #[tactic(auto, unfolding(crate::specs::ReadGrammar::when_form))]
    #[cycle(query)]
    fn when(self, tokens: &mut Cursor<'_>) -> Result<NamedWhen, Stop>
        ensures { Reads (outcome self.depth read_grammar.when_form tokens.old) result tokens.new }
    {
        tokens.word(Keyword::When)?;
        let cond = self.condition(tokens)?;
        let (cond, _) = both(cond, tokens.word(Keyword::Then))?;
        let (cond, value) = both(cond, self.sum(tokens))?;
        Ok(NamedWhen { cond, value })
    }

    /// `WHEN cond THEN sum { WHEN cond THEN sum }`
    #[tactic(auto, unfolding(crate::specs::ReadGrammar::whens_form))]
    #[cycle(query)]
    fn whens(self, tokens: &mut Cursor<'_>) -> Result<List<NamedWhen>, Stop>
        ensures { Reads (outcome self.depth read_grammar.whens_form tokens.old) result tokens.new }
    {
        let mut found = pushed(List::new(self.alloc), self.when(tokens))?;
        'more: while tokens.at_word(Keyword::When) {
            found = pushed(found, self.when(tokens))?;
        }
        Ok(found)
    }

    /// `[ELSE sum]`
    #[tactic(auto, unfolding(crate::specs::ReadGrammar::otherwise))]
    #[cycle(query)]
    fn otherwise(self, tokens: &mut Cursor<'_>) -> Result<Option<Boxed<NamedScalar>>, Stop>
        ensures { Reads (outcome self.depth read_grammar.otherwise tokens.old) result tokens.new }
    {
        if tokens.eat_word(Keyword::Else) {
            let value = self.sum(tokens)?;
            return Ok(Some(Boxed::new(self.alloc, value)?));
        }
        Ok(None)
    }

    #[tactic(auto, unfolding(crate::specs::ReadGrammar::results_form))]
    #[cycle(query)]
    fn results(self, tokens: &mut Cursor<'_>) -> Result<Results, Stop>
        ensures { Reads (outcome self.depth read_grammar.results_form tokens.old) result
            tokens.new }
    {
        let whens = self.whens(tokens)?;
        let (whens, otherwise) = both(whens, self.otherwise(tokens))?;
        Ok((whens, otherwise))
    }

    /// What stands between CASE and END.
    #[cycle(query)]
    fn nested_results(self, tokens: &mut Cursor<'_>) -> Result<Results, Stop>
        ensures { Reads (nested self.depth grammar.results_rule tokens.old) result tokens.new }
    {
        if self.depth == 0 {
            return Err(Stop::Fault);
        }
        let inner = Reader {
            alloc: self.alloc,
            depth: self.depth - 1,
        };
        inner.results(tokens)
    }
}

/// Whether a plus or a minus comes next.
#[tactic(auto, using(grammar_forms::proofs::Sets::begins_more))]
fn at_sign(tokens: &Cursor<'_>) -> bool
    ensures { result ≡ begins class (symbol_class Plus ∷ symbol_class Minus ∷ []) tokens.now }
{
    tokens.at_symbol(Symbol::Plus) || tokens.at_symbol(Symbol::Minus)
}

/// A sum of one factor is that factor.
fn sum_of(first: NamedScalar, more: List<NamedTerm>) -> Result<NamedScalar, Memory>
    ensures { IfOk result (λ sum. sum ≡ grammar.sum_of first more) }
{
    let mut terms = more.into_vec();
    if terms.is_empty() {
        return Ok(first);
    }
    let first = NamedTerm {
        minus: false,
        scalar: first,
    };
    terms.insert(0, first)?;
    Ok(NamedScalar::Sum(List::of(terms)))
}
