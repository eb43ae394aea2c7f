//! The parts that both forms of the written query share.
ghost use Rattle.std.specs.Prelude.{◌≡◌, ◌+◌, ◌<◌, ◌^◌, length, IfOk, All};
ghost use Rattle.std.specs.List.{flat_map};
ghost use Rattle.conditions.specs.Meaning.{scalars_of};
ghost use Rattle.query_meaning.specs.declared.block.Output.{Output};
ghost use Rattle.rewritten_query.specs.Conditions.{conjunction};
ghost use Rattle.rewritten_query.specs.Rewriting.{output_items, table_item, table_items, where_over_tables};
ghost use Rattle.sql_rewriter.specs.Shown.{HasLiteral, IsSmall, column_shown, quality_shown};

use crate::names::table_name;
use crate::shown::{Shown, put_conds, put_scalar};
use prefsql_values::{List, Memory};
use query_meaning::{Block, FromTable, Output};
use sql_tree::{SqlCond, SqlFrom, SqlItem, SqlSource, SqlTable};
use std::alloc::Global;

/// The FROM table of this number.
fn table_item(alloc: Global, n: u32, table: &FromTable) -> Result<SqlFrom, Memory>
    ensures { IfOk result (λ item. item ≡ table_item n table.now) }
{
    Ok(SqlFrom {
        name: table_name(alloc, n)?,
        source: SqlSource::Table(SqlTable {
            index: table.index,
            name: table.name.copy(alloc)?,
            schema: table.schema.copy(alloc)?,
        }),
    })
}

/// The FROM tables.
#[tactic(auto, using(crate::proofs::Pushes::items_pushed))]
pub(crate) fn table_items(alloc: Global, from: &[FromTable]) -> Result<List<SqlFrom>, Memory>
    requires { length from.now + 1 < 2 ^ 32 }
    ensures { IfOk result (λ items. items ≡ table_items 1 from.now) }
{
    let mut items = List::new(alloc);
    let mut n = 1;
    for table in from {
        items.push(table_item(alloc, n, table)?)?;
        n += 1;
    }
    Ok(items)
}

/// Nothing, the one condition, or an And of them.
pub(crate) fn conjunction(conds: List<SqlCond>) -> Option<SqlCond>
    ensures { result ≡ conjunction conds }
{
    let mut conds = conds.into_vec();
    match conds.len() {
        0 => None,
        1 => conds.pop(),
        _ => Some(SqlCond::And(List::of(conds))),
    }
}

/// WHERE, over the tables.
pub(crate) fn where_over_tables(alloc: Global, block: &Block) -> Result<Option<SqlCond>, Memory>
    requires { All HasLiteral (flat_map scalars_of block.now.filter) }
    ensures { IfOk result (λ cond. cond ≡ where_over_tables block.now) }
{
    let conds = put_conds(alloc, &Shown::Tables, block.filter.as_slice())?;
    Ok(conjunction(conds))
}

/// The output items.
pub(crate) fn output_items(
    alloc: Global,
    shown: &Shown<'_>,
    outputs: &[Output],
) -> Result<List<SqlItem>, Memory>
    requires small { IsSmall shown.now }
    requires literal { All (λ (output : Output). HasLiteral output.scalar) outputs.now }
    ensures { IfOk result
        (λ items. items ≡ output_items (column_shown shown.now)
        (quality_shown shown.now) outputs.now) }
{
    let mut items = List::new(alloc);
    for output in outputs {
        items.push(SqlItem {
            value: put_scalar(alloc, shown, &output.scalar)?,
            name: output.name.copy(alloc)?,
        })?;
    }
    Ok(items)
}
