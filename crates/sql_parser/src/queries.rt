//! Queries and their FROM items.

ghost use Rattle.std.specs.Prelude.{◌≡◌, Ok};
ghost use Rattle.grammar_forms.specs.Form.{rule};
ghost use Rattle.token_forms.specs.Forms as forms;
ghost use Rattle.token_forms.specs.Phrases as phrases;
ghost use Rattle.token_forms.specs.Reads.{Reads};
ghost use Rattle.sql_text.specs.Grammar as grammar;
ghost use Rattle.sql_parser.specs.ReadGrammar as read_grammar;
ghost use Rattle.sql_parser.specs.Outcome.{outcome, nested};

use crate::reader::Reader;
use prefsql_lexer::{Keyword, Symbol};
use prefsql_values::{Boxed, List};
use query_tree::FromTree;
use sql_text::{NamedCond, NamedFrom, NamedItem, NamedQuery, NamedSelect};
use token_forms::{Cursor, Stop, both, pushed};

impl Reader {
    /// `sum [[AS] name]`
    #[tactic(auto, unfolding(sql_text::specs::Grammar::item), using(crate::proofs::Plain::plain_alias))]
    #[cycle(query)]
    fn item(self, tokens: &mut Cursor<'_>) -> Result<NamedItem, Stop>
        ensures { Reads (outcome self.depth grammar.item tokens.old) result tokens.new }
    {
        let value = self.sum(tokens)?;
        let (value, alias) = both(value, tokens.alias())?;
        let name = match alias {
            None => None,
            Some((text, _)) => Some(text),
        };
        Ok(NamedItem { value, name })
    }

    /// `item { "," item }`
    #[tactic(auto, unfolding(crate::specs::ReadGrammar::items))]
    #[cycle(query)]
    fn items(self, tokens: &mut Cursor<'_>) -> Result<List<NamedItem>, Stop>
        ensures { Reads (outcome self.depth read_grammar.items tokens.old) result tokens.new }
    {
        let mut found = pushed(List::new(self.alloc), self.item(tokens))?;
        'more: while tokens.eat_symbol(Symbol::Comma) {
            found = pushed(found, self.item(tokens))?;
        }
        Ok(found)
    }

    /// `"*" | item { "," item }`
    #[tactic(auto, unfolding(sql_text::specs::Grammar::list, crate::specs::ReadGrammar::items))]
    #[cycle(query)]
    fn select_list(self, tokens: &mut Cursor<'_>) -> Result<NamedSelect, Stop>
        ensures { Reads (outcome self.depth grammar.list tokens.old) result tokens.new }
    {
        if tokens.eat_symbol(Symbol::Star) {
            return Ok(NamedSelect::All);
        }
        Ok(NamedSelect::Items(self.items(tokens)?))
    }

    #[cycle(query)]
    pub(crate) fn query_in_parens(self, tokens: &mut Cursor<'_>) -> Result<Boxed<NamedQuery>, Stop>
        ensures { Reads (outcome self.depth (forms.in_parens (rule grammar.query_rule)) tokens.old)
            result tokens.new }
    {
        tokens.symbol(Symbol::LeftParen)?;
        let query = self.nested_query(tokens)?;
        let (query, _) = both(query, tokens.symbol(Symbol::RightParen))?;
        Ok(Boxed::new(self.alloc, query)?)
    }

    /// `"(" query ")" [AS] name`
    #[tactic(auto, unfolding(sql_text::specs::Grammar::derived))]
    #[cycle(query)]
    fn derived(self, tokens: &mut Cursor<'_>) -> Result<NamedFrom, Stop>
        ensures { Reads (outcome self.depth grammar.derived tokens.old) result tokens.new }
    {
        let query = self.query_in_parens(tokens)?;
        tokens.eat_word(Keyword::As);
        let (query, (name, at)) = both(query, tokens.name())?;
        Ok(NamedFrom::Derived(query, name, at))
    }

    /// `name [[AS] name]`
    #[tactic(auto, unfolding(token_forms::specs::Phrases::from), using(crate::proofs::Plain::plain_alias))]
    fn table(self, tokens: &mut Cursor<'_>) -> Result<FromTree, Stop>
        ensures { Reads (outcome self.depth phrases.from tokens.old) result tokens.new }
    {
        let (table, at) = tokens.name()?;
        let (table, alias) = both(table, tokens.alias())?;
        match alias {
            None => Ok(FromTree {
                table,
                name: None,
                at,
                name_at: at,
            }),
            Some((name, name_at)) => Ok(FromTree {
                table,
                name: Some(name),
                at,
                name_at,
            }),
        }
    }

    /// `name [[AS] name] | "(" query ")" [AS] name`
    #[tactic(auto, unfolding(sql_text::specs::Grammar::from, token_forms::specs::Phrases::from))]
    #[cycle(query)]
    fn from_item(self, tokens: &mut Cursor<'_>) -> Result<NamedFrom, Stop>
        ensures { Reads (outcome self.depth grammar.from tokens.old) result tokens.new }
    {
        if tokens.at_name() {
            return Ok(NamedFrom::Table(self.table(tokens)?));
        }
        self.derived(tokens)
    }

    /// FROM items with commas between them.
    #[tactic(auto, unfolding(sql_text::specs::Grammar::from_items))]
    #[cycle(query)]
    fn from_items(self, tokens: &mut Cursor<'_>) -> Result<List<NamedFrom>, Stop>
        ensures { Reads (outcome self.depth grammar.from_items tokens.old) result tokens.new }
    {
        let mut found = pushed(List::new(self.alloc), self.from_item(tokens))?;
        'more: while tokens.eat_symbol(Symbol::Comma) {
            found = pushed(found, self.from_item(tokens))?;
        }
        Ok(found)
    }

    /// `[WHERE cond]`
    #[tactic(auto, unfolding(crate::specs::ReadGrammar::filter_form))]
    #[cycle(query)]
    fn filter(self, tokens: &mut Cursor<'_>) -> Result<Option<NamedCond>, Stop>
        ensures { Reads (outcome self.depth read_grammar.filter_form tokens.old) result tokens.new }
    {
        if tokens.eat_word(Keyword::Where) {
            return Ok(Some(self.condition(tokens)?));
        }
        Ok(None)
    }

    #[tactic(auto, using(crate::proofs::Plain::plain_distinctness))]
    fn distinctness(self, tokens: &mut Cursor<'_>) -> bool
        ensures { outcome self.depth phrases.distinctness tokens.old ≡ Ok (result, tokens.new) }
    {
        tokens.distinctness()
    }

    /// `SELECT [DISTINCT] list FROM from { "," from } [WHERE cond]`
    #[tactic(auto, unfolding(crate::specs::ReadGrammar::query_form, crate::specs::ReadGrammar::filter_form))]
    #[cycle(query)]
    pub(crate) fn query(self, tokens: &mut Cursor<'_>) -> Result<NamedQuery, Stop>
        ensures { Reads (outcome self.depth read_grammar.query_form tokens.old) result tokens.new }
    {
        let at = tokens.word_at(Keyword::Select)?;
        let distinct = self.distinctness(tokens);
        let select = self.select_list(tokens)?;
        let (select, _) = both(select, tokens.word(Keyword::From))?;
        let (select, from) = both(select, self.from_items(tokens))?;
        let ((select, from), filter) = both((select, from), self.filter(tokens))?;
        Ok(NamedQuery {
            at,
            distinct,
            select,
            from,
            filter,
        })
    }

    /// A query in parentheses.
    #[cycle(query)]
    fn nested_query(self, tokens: &mut Cursor<'_>) -> Result<NamedQuery, Stop>
        ensures { Reads (nested self.depth grammar.query_rule tokens.old) result tokens.new }
    {
        if self.depth == 0 {
            return Err(Stop::Fault);
        }
        let inner = Reader {
            alloc: self.alloc,
            depth: self.depth - 1,
        };
        inner.query(tokens)
    }
}
