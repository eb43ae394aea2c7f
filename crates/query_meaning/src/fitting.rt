ghost use Rattle.std.specs.Prelude.{◌↔◌, IsTrue};
ghost use Rattle.query_meaning.specs.BlockFits.{FitsTables, IsTableOf};

use crate::block::{Block, FromTable};
use prefsql_tables::TableSet;

impl Block {
    /// Whether each FROM table is, at its position in the set, of this name and with these columns.
    pub fn fits(&self, tables: &TableSet) -> bool
        ensures { IsTrue result ↔ FitsTables tables.now self.now }
    {
        self.from.as_slice().iter().all(|table| table.is_of(tables))
    }
}

impl FromTable {
    /// Whether it is the table at its position in the set.
    fn is_of(&self, tables: &TableSet) -> bool
        ensures { IsTrue result ↔ IsTableOf tables.now self.now }
    {
        tables.has_table_at(self.index, self.name.as_str(), &self.schema)
    }
}
