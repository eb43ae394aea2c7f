//! Names of tables and of columns, items of an order, and words that may be left out.

ghost use Rattle.std.specs.Prelude.{◌≡◌, Ok};
ghost use Rattle.token_forms.specs.Columns as columns;
ghost use Rattle.token_forms.specs.Phrases as phrases;
ghost use Rattle.token_forms.specs.Plain.{plain};
ghost use Rattle.token_forms.specs.Reads.{Reads};

use crate::cursor::{Cursor, Stop};
use crate::held::{both, pushed};
use prefsql_lexer::{Keyword, Symbol};
use prefsql_values::{List, Text};
use query_tree::{FromTree, OrderName, OrderTree};

impl Cursor<'_> {
    /// `[[AS] name]`
    #[tactic(auto, unfolding(crate::specs::Phrases::alias), using(grammar_forms::proofs::Sets::begins_more))]
    pub fn alias(&mut self) -> Result<Option<(Text, u32)>, Stop>
        ensures { Reads (plain phrases.alias self.old) result self.new }
    {
        if self.eat_word(Keyword::As) {
            return Ok(Some(self.name()?));
        }
        if self.at_name() {
            return Ok(Some(self.name()?));
        }
        Ok(None)
    }

    /// A table's name and its own one.
    #[tactic(auto, unfolding(crate::specs::Phrases::from))]
    fn from_item(&mut self) -> Result<FromTree, Stop>
        ensures { Reads (plain phrases.from self.old) result self.new }
    {
        let (table, at) = self.name()?;
        let (table, alias) = both(table, self.alias())?;
        match alias {
            None => Ok(FromTree {
                table,
                name: None,
                at,
                name_at: at,
            }),
            Some((name, name_at)) => Ok(FromTree {
                table,
                name: Some(name),
                at,
                name_at,
            }),
        }
    }

    /// Tables with their own names, with commas between them.
    #[tactic(auto, unfolding(crate::specs::Phrases::from_items))]
    pub fn from_items(&mut self) -> Result<List<FromTree>, Stop>
        ensures { Reads (plain phrases.from_items self.old) result self.new }
    {
        let mut found = pushed(List::new(self.alloc), self.from_item())?;
        'more: while self.eat_symbol(Symbol::Comma) {
            found = pushed(found, self.from_item())?;
        }
        Ok(found)
    }

    /// Whether DISTINCT comes next.
    #[tactic(auto, unfolding(crate::specs::Phrases::distinctness))]
    pub fn distinctness(&mut self) -> bool
        ensures { plain phrases.distinctness self.old ≡ Ok (result, self.new) }
    {
        self.eat_word(Keyword::Distinct)
    }

    /// Whether NOT comes next.
    #[tactic(auto, unfolding(crate::specs::Phrases::negation))]
    pub fn negation(&mut self) -> bool
        ensures { plain phrases.negation self.old ≡ Ok (result, self.new) }
    {
        self.eat_word(Keyword::Not)
    }

    /// Whether DESC comes next, or else perhaps ASC.
    #[tactic(auto, unfolding(crate::specs::Columns::direction), using(grammar_forms::proofs::Sets::begins_more))]
    fn direction(&mut self) -> bool
        ensures { plain columns.direction self.old ≡ Ok (result, self.new) }
    {
        if self.eat_word(Keyword::Asc) {
            return false;
        }
        self.eat_word(Keyword::Desc)
    }

    #[tactic(auto, unfolding(crate::specs::Columns::order))]
    fn order_item(&mut self) -> Result<OrderTree, Stop>
        ensures { Reads (plain columns.order self.old) result self.new }
    {
        if self.at_name() {
            let (name, at) = self.name()?;
            let descending = self.direction();
            return Ok(OrderTree {
                key: OrderName::Name(name),
                descending,
                at,
            });
        }
        let (number, at) = self.number()?;
        let descending = self.direction();
        Ok(OrderTree {
            key: OrderName::Position(number),
            descending,
            at,
        })
    }

    #[tactic(auto, unfolding(crate::specs::Columns::orders))]
    fn order_items(&mut self) -> Result<List<OrderTree>, Stop>
        ensures { Reads (plain columns.orders self.old) result self.new }
    {
        let mut found = pushed(List::new(self.alloc), self.order_item())?;
        'more: while self.eat_symbol(Symbol::Comma) {
            found = pushed(found, self.order_item())?;
        }
        Ok(found)
    }

    /// `[ORDER BY order { "," order }]`
    #[tactic(auto, unfolding(crate::specs::Phrases::ordering))]
    pub fn ordering(&mut self) -> Result<List<OrderTree>, Stop>
        ensures { Reads (plain phrases.ordering self.old) result self.new }
    {
        if self.eat_word(Keyword::Order) {
            self.word(Keyword::By)?;
            return self.order_items();
        }
        Ok(List::new(self.alloc))
    }
}
