//! That the written query is valid, and which tables it fits.
ghost use Rattle.prefsql_tables.specs.Table.{Tables};
ghost use Rattle.query_meaning.specs.BlockFits.{FitsTables as HasTables};
ghost use Rattle.query_meaning.specs.Valid.{IsValidBlock};
ghost use Rattle.rewritten_query.specs.Rewriting.{rewritten};
ghost use Rattle.sql_tree.specs.Fits.{FitsTables};
ghost use Rattle.sql_tree.specs.WellFormed.{IsValid};

use query_meaning::Block;

/// The law that the query that a valid block is written as is a valid SQL query.
pub fn writes_valid(block: &Block)
    requires { IsValidBlock block.now }
    ensures valid { IsValid (rewritten block.now) }
{
    let _ = &block.from;
}

/// The law that the query that a block is written as fits each set of tables that the block fits:
/// it names no table but those in the FROM of the block.
pub fn writes_fitting(block: &Block)
    ensures fits { (tables : Tables) → HasTables tables block.now
        → FitsTables tables (rewritten block.now) }
{
    let _ = &block.from;
}
