//! What the places of rows in their tables leave as it was.
ghost use Rattle.reordered_tables.specs.Reordered.{HasOneAnswer};

/// The law of reordered tables: over two sets of tables with the same names and columns whose tables
/// have the same rows in some order, a query has one answer.
pub fn reordered_tables_law()
    ensures { HasOneAnswer }
{}
