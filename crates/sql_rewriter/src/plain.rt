//! A query without a preference.
ghost use Rattle.std.specs.Prelude.{◌≡◌, ◌+◌, ◌<◌, ◌^◌, length, IfOk, All};
ghost use Rattle.std.specs.List.{flat_map};
ghost use Rattle.conditions.specs.Meaning.{scalars_of};
ghost use Rattle.query_meaning.specs.declared.block.Output.{Output};
ghost use Rattle.rewritten_query.specs.Rewriting.{plain_query};
ghost use Rattle.sql_rewriter.specs.Shown.{HasLiteral};

use crate::parts::{output_items, table_items, where_over_tables};
use crate::shown::Shown;
use prefsql_tables::SortKey;
use prefsql_values::{List, Memory};
use query_meaning::Block;
use sql_tree::SqlQuery;
use std::alloc::Global;

/// The keys of an order.
pub(crate) fn keys(alloc: Global, order: &[SortKey]) -> Result<List<SortKey>, Memory>
    ensures { IfOk result (λ keys. keys ≡ order.now) }
{
    Ok(List::of(order.iter().copied().collect(alloc)?))
}

/// The query of a block without a preference.
pub(crate) fn plain_query(alloc: Global, block: &Block) -> Result<SqlQuery, Memory>
    requires few { length block.now.from + 1 < 2 ^ 32 }
    requires filter { All HasLiteral (flat_map scalars_of block.now.filter) }
    requires output { All (λ (output : Output). HasLiteral output.scalar) block.now.output }
    ensures { IfOk result (λ query. query ≡ plain_query block.now) }
{
    let items = output_items(alloc, &Shown::Tables, block.output.as_slice())?;
    let from = table_items(alloc, block.from.as_slice())?;
    let filter = where_over_tables(alloc, block)?;
    let order = keys(alloc, block.order.as_slice())?;
    Ok(SqlQuery {
        distinct: block.distinct,
        items,
        from,
        filter,
        order,
    })
}
