//! The preference over one table alone, and the groups within which it may be asked before the
//! joins.
ghost use Rattle.std.specs.Prelude.{◌≡◌, ◌++◌, length, IfOk};
ghost use Rattle.query_meaning.specs.BlockFits.{columns_from};
ghost use Rattle.query_meaning.specs.Valid.{IsValidBlock};
ghost use Rattle.plan_stages.specs.Stages.{joint_places, table_groups, table_places, table_term};

use crate::conjuncts::places_of;
use crate::placing::is_joint;
use crate::sinking::{is_place_in, lowered};
use plan_algebra::Conjunct;
use pref_terms::{Term, restrict};
use prefsql_tables::ColumnPlace;
use prefsql_values::{List, Memory};
use query_meaning::Block;
use std::alloc::Global;

/// The columns that the conditions of two or more tables read, behind the block's groups.
fn needed_places(
    alloc: Global,
    block: &Block,
    conjuncts: &[Conjunct],
) -> Result<Vec<ColumnPlace>, Memory>
    ensures { IfOk result
        (λ places. places.items ≡ block.now.groups ++ joint_places block.now conjuncts.now) }
{
    let mut needed = Vec::new(alloc);
    for place in block.groups.as_slice() {
        needed.push(*place)?;
    }
    for conjunct in conjuncts {
        let mut places = places_of(alloc, block, *conjunct)?;
        if is_joint(places.as_slice()) {
            needed.append(&mut places)?;
        }
    }
    Ok(needed)
}

/// How many columns a FROM table has.
fn width(block: &Block, table: u32) -> u32
    requires { IsValidBlock block.now }
    ensures { result ≡ length (columns_from block.now.from table) }
{
    match block.from.as_slice().get(table as usize) {
        Some(table) => table.schema.columns.as_slice().len() as u32,
        None => 0,
    }
}

/// All columns of the FROM table at a position.
fn table_places(alloc: Global, block: &Block, table: u32) -> Result<Vec<ColumnPlace>, Memory>
    requires { IsValidBlock block.now }
    ensures { IfOk result (λ places. places.items ≡ table_places block.now table) }
{
    let mut places = Vec::new(alloc);
    for column in 0..width(block, table) {
        places.push(ColumnPlace { table, column })?;
    }
    Ok(places)
}

/// The groups within which rows of a table may be dropped before the joins.
pub fn table_groups(alloc: Global, block: &Block, table: u32) -> Result<List<ColumnPlace>, Memory>
    requires { IsValidBlock block.now }
    ensures { IfOk result (λ groups. groups ≡ table_groups block.now table) }
{
    let lowered = lowered(alloc, block)?;
    let needed = needed_places(alloc, block, lowered.as_slice())?;
    let places = table_places(alloc, block, table)?;
    let mut groups = List::new(alloc);
    for place in places.as_slice() {
        if is_place_in(needed.as_slice(), *place) {
            groups.push(*place)?;
        }
    }
    Ok(groups)
}

/// The part of the preference that stands on the table.
pub fn table_term(alloc: Global, term: &Option<Term>, table: u32) -> Result<Option<Term>, Memory>
    ensures { IfOk result (λ left. left ≡ table_term term.now table) }
{
    match term {
        None => Ok(None),
        Some(term) => restrict(alloc, term, table),
    }
}
