//! Statements and scripts.

ghost use Rattle.std.specs.Prelude.{◌≡◌, Ok};
ghost use Rattle.query_grammar.specs.Items as items;
ghost use Rattle.query_grammar.specs.ReadStatements as statements;
ghost use Rattle.grammar_forms.specs.Form.{option};
ghost use Rattle.query_grammar.specs.Trees.{query_tree};
ghost use Rattle.query_grammar.specs.Outcome.{outcome};
ghost use Rattle.token_forms.specs.Phrases as phrases;
ghost use Rattle.token_forms.specs.Reads.{Reads};
ghost use Rattle.script_forms.specs.Counted.{counted};

use crate::parser::Parser;
use condition_reader::ConditionReader;
use preference_reader::PreferenceReader;
use prefsql_lexer::{Keyword, Symbol};
use prefsql_values::List;
use query_tree::{
    CondTree, FromTree, ItemTree, NameTree, OrderTree, PrefTree, QueryTree, ScalarTree, SelectTree,
};
use token_forms::{Cursor, Stop, both, pushed};

const MAX_STATEMENTS: usize = 64;

/// What is preferred, by which groups, and what is then kept.
type Preferred = (PrefTree, (List<NameTree>, Option<CondTree>));

impl Parser {
    #[tactic(auto, unfolding(query_grammar::specs::Items::value, query_grammar::specs::Scalars::level, query_grammar::specs::Scalars::distance), using(query_grammar::proofs::Plain::plain_column))]
    fn item_value(self, tokens: &mut Cursor<'_>) -> Result<ScalarTree, Stop>
        ensures { Reads (outcome self.depth items.value tokens.old) result tokens.new }
    {
        let qualities = ConditionReader {
            alloc: self.alloc,
            depth: self.depth,
            qualities: true,
        };
        if tokens.at_word(Keyword::Level) {
            return qualities.level(tokens);
        }
        if tokens.at_word(Keyword::Distance) {
            return qualities.distance(tokens);
        }
        Ok(ScalarTree::Column(tokens.column()?))
    }

    #[tactic(auto, unfolding(query_grammar::specs::Items::item), using(query_grammar::proofs::Plain::plain_alias))]
    fn item(self, tokens: &mut Cursor<'_>) -> Result<ItemTree, Stop>
        ensures { Reads (outcome self.depth items.item tokens.old) result tokens.new }
    {
        let value = self.item_value(tokens)?;
        let (value, alias) = both(value, tokens.alias())?;
        let name = match alias {
            None => None,
            Some((text, _)) => Some(text),
        };
        Ok(ItemTree { value, name })
    }

    #[tactic(auto, unfolding(query_grammar::specs::Items::items))]
    fn items(self, tokens: &mut Cursor<'_>) -> Result<List<ItemTree>, Stop>
        ensures { Reads (outcome self.depth items.items tokens.old) result tokens.new }
    {
        let mut found = pushed(List::new(self.alloc), self.item(tokens))?;
        'more: while tokens.eat_symbol(Symbol::Comma) {
            found = pushed(found, self.item(tokens))?;
        }
        Ok(found)
    }

    #[tactic(auto, unfolding(query_grammar::specs::Items::list))]
    fn select_list(self, tokens: &mut Cursor<'_>) -> Result<SelectTree, Stop>
        ensures { Reads (outcome self.depth items.list tokens.old) result tokens.new }
    {
        if tokens.eat_symbol(Symbol::Star) {
            return Ok(SelectTree::All);
        }
        Ok(SelectTree::Items(self.items(tokens)?))
    }

    #[tactic(auto, unfolding(query_grammar::specs::ReadStatements::filter))]
    fn filter(self, tokens: &mut Cursor<'_>) -> Result<Option<CondTree>, Stop>
        ensures { Reads (outcome self.depth statements.filter tokens.old) result tokens.new }
    {
        if tokens.eat_word(Keyword::Where) {
            let conditions = ConditionReader {
                alloc: self.alloc,
                depth: self.depth,
                qualities: false,
            };
            return Ok(Some(conditions.condition(tokens)?));
        }
        Ok(None)
    }

    #[tactic(auto, unfolding(query_grammar::specs::Items::groups), using(query_grammar::proofs::Plain::plain_columns))]
    fn groups(self, tokens: &mut Cursor<'_>) -> Result<List<NameTree>, Stop>
        ensures { Reads (outcome self.depth items.groups tokens.old) result tokens.new }
    {
        if tokens.eat_word(Keyword::Grouping) {
            return tokens.columns();
        }
        Ok(List::new(self.alloc))
    }

    #[tactic(auto, unfolding(query_grammar::specs::ReadStatements::only))]
    fn only(self, tokens: &mut Cursor<'_>) -> Result<Option<CondTree>, Stop>
        ensures { Reads (outcome self.depth statements.only tokens.old) result tokens.new }
    {
        if tokens.eat_word(Keyword::But) {
            tokens.word(Keyword::Only)?;
            let conditions = ConditionReader {
                alloc: self.alloc,
                depth: self.depth,
                qualities: true,
            };
            return Ok(Some(conditions.condition(tokens)?));
        }
        Ok(None)
    }

    #[tactic(auto, unfolding(query_grammar::specs::ReadStatements::prefer_form))]
    fn prefer(self, tokens: &mut Cursor<'_>) -> Result<Preferred, Stop>
        ensures { Reads (outcome self.depth statements.prefer_form tokens.old) result tokens.new }
    {
        tokens.word(Keyword::Preferring)?;
        let preferences = PreferenceReader {
            alloc: self.alloc,
            depth: self.depth,
        };
        let preference = preferences.preference(tokens)?;
        let (preference, groups) = both(preference, self.groups(tokens))?;
        let ((preference, groups), only) = both((preference, groups), self.only(tokens))?;
        Ok((preference, (groups, only)))
    }

    #[tactic(auto, unfolding(query_grammar::specs::ReadStatements::prefer_form))]
    fn preferred(self, tokens: &mut Cursor<'_>) -> Result<Option<Preferred>, Stop>
        ensures { Reads (outcome self.depth (option statements.prefer_form) tokens.old) result
            tokens.new }
    {
        if tokens.at_word(Keyword::Preferring) {
            return Ok(Some(self.prefer(tokens)?));
        }
        Ok(None)
    }

    #[tactic(auto, using(query_grammar::proofs::Plain::plain_distinctness))]
    fn distinctness(self, tokens: &mut Cursor<'_>) -> bool
        ensures { outcome self.depth phrases.distinctness tokens.old ≡ Ok (result, tokens.new) }
    {
        tokens.distinctness()
    }

    #[tactic(auto, using(query_grammar::proofs::Plain::plain_from_items))]
    fn from_items(self, tokens: &mut Cursor<'_>) -> Result<List<FromTree>, Stop>
        ensures { Reads (outcome self.depth phrases.from_items tokens.old) result tokens.new }
    {
        tokens.from_items()
    }

    #[tactic(auto, using(query_grammar::proofs::Plain::plain_ordering))]
    fn ordering(self, tokens: &mut Cursor<'_>) -> Result<List<OrderTree>, Stop>
        ensures { Reads (outcome self.depth phrases.ordering tokens.old) result tokens.new }
    {
        tokens.ordering()
    }

    #[tactic(auto, unfolding(query_grammar::specs::ReadStatements::statement_form, query_grammar::specs::ReadStatements::prefer_form))]
    fn statement(self, tokens: &mut Cursor<'_>) -> Result<QueryTree, Stop>
        ensures { Reads (outcome self.depth statements.statement_form tokens.old) result
            tokens.new }
    {
        tokens.word(Keyword::Select)?;
        let distinct = self.distinctness(tokens);
        let select = self.select_list(tokens)?;
        let (select, _) = both(select, tokens.word(Keyword::From))?;
        let (select, from) = both(select, self.from_items(tokens))?;
        let (head, filter) = both((select, from), self.filter(tokens))?;
        let (head, preferred) = both((head, filter), self.preferred(tokens))?;
        let ((((select, from), filter), preferred), order) = both(
            (head, preferred),
            self.ordering(tokens),
        )?;
        Ok(self.query(distinct, select, from, filter, preferred, order))
    }

    fn query(
        self,
        distinct: bool,
        select: SelectTree,
        from: List<FromTree>,
        filter: Option<CondTree>,
        preferred: Option<Preferred>,
        order: List<OrderTree>,
    ) -> QueryTree
        ensures { result ≡ query_tree (distinct, (select, (from, (filter, (preferred, order))))) }
    {
        match preferred {
            Some((prefer, (groups, only))) => QueryTree {
                distinct,
                select,
                from,
                filter,
                prefer: Some(prefer),
                groups,
                only,
                order,
            },
            None => QueryTree {
                distinct,
                select,
                from,
                filter,
                prefer: None,
                groups: List::new(self.alloc),
                only: None,
                order,
            },
        }
    }

    /// The statements, and whether these are so many that no more may follow.
    pub fn script(self, tokens: &mut Cursor<'_>) -> Result<(List<QueryTree>, bool), Stop>
        ensures { Reads (outcome self.depth (counted statements.statement_form 64) tokens.old)
            result tokens.new }
    {
        let mut found = List::new(self.alloc);
        'more: for _turn in 0..MAX_STATEMENTS {
            if !tokens.at_word(Keyword::Select) {
                return Ok((found, false));
            }
            found = pushed(found, self.statement(tokens))?;
            if !tokens.eat_symbol(Symbol::Semicolon) {
                return Ok((found, false));
            }
        }
        Ok((found, true))
    }
}
