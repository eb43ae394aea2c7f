//! Statements and scripts.

ghost use Rattle.script_forms.specs.Counted.{counted};
ghost use Rattle.token_forms.specs.Phrases as phrases;
ghost use Rattle.token_forms.specs.Reads.{Reads};
ghost use Rattle.sql_parser.specs.ReadGrammar as read_grammar;
ghost use Rattle.sql_parser.specs.Outcome.{outcome};

use crate::reader::Reader;
use prefsql_lexer::{Keyword, Symbol};
use prefsql_values::List;
use query_tree::OrderTree;
use sql_text::NamedStatement;
use token_forms::{Cursor, Stop, both, pushed};

const MAX_STATEMENTS: usize = 64;

impl Reader {
    #[tactic(auto, using(crate::proofs::Plain::plain_ordering))]
    fn ordering(self, tokens: &mut Cursor<'_>) -> Result<List<OrderTree>, Stop>
        ensures { Reads (outcome self.depth phrases.ordering tokens.old) result tokens.new }
    {
        tokens.ordering()
    }

    /// `query [ORDER BY order { "," order }]`
    #[tactic(auto, unfolding(crate::specs::ReadGrammar::statement_form))]
    fn statement(self, tokens: &mut Cursor<'_>) -> Result<NamedStatement, Stop>
        ensures { Reads (outcome self.depth read_grammar.statement_form tokens.old) result
            tokens.new }
    {
        let query = self.query(tokens)?;
        let (query, order) = both(query, self.ordering(tokens))?;
        Ok(NamedStatement { query, order })
    }

    /// The statements, and whether these are so many that no more may follow.
    pub(crate) fn script(
        self,
        tokens: &mut Cursor<'_>,
    ) -> Result<(List<NamedStatement>, bool), Stop>
        ensures { Reads (outcome self.depth (counted read_grammar.statement_form 64) tokens.old)
            result tokens.new }
    {
        let mut found = List::new(self.alloc);
        'more: for _turn in 0..MAX_STATEMENTS {
            if !tokens.at_word(Keyword::Select) {
                return Ok((found, false));
            }
            found = pushed(found, self.statement(tokens))?;
            if !tokens.eat_symbol(Symbol::Semicolon) {
                return Ok((found, false));
            }
        }
        Ok((found, true))
    }
}
