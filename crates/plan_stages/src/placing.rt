//! The nodes at which the conditions of a block stand.
ghost use Rattle.std.specs.Prelude.{◌≡◌, IfOk};
ghost use Rattle.plan_algebra.specs.Conjuncts.{places_of};
ghost use Rattle.plan_stages.specs.Placing.{at_join, at_scan, is_joint, last_table};

use crate::conjuncts::places_of;
use plan_algebra::Conjunct;
use prefsql_tables::ColumnPlace;
use prefsql_values::{List, Memory};
use query_meaning::Block;
use std::alloc::Global;

/// The lowest node that has all tables of a condition: the scan of its last table, or the join that
/// adds it.
#[derive(Clone, Copy, Debug)]
struct LowestNode {
    table: u32,
    joint: bool,
}

/// The last of the tables of some columns, and the first table where there is no column.
fn last_table(places: &[ColumnPlace]) -> u32
    ensures { result ≡ last_table places.now }
{
    let mut last = 0;
    for place in places {
        last = place.table.max(last);
    }
    last
}

/// Whether the columns are of two tables or more.
pub fn is_joint(places: &[ColumnPlace]) -> bool
    ensures { result ≡ is_joint places.now }
{
    let last = last_table(places);
    for place in places {
        if place.table != last {
            return true;
        }
    }
    false
}

/// The lowest node that has all tables of the condition.
fn lowest_node(alloc: Global, block: &Block, conjunct: Conjunct) -> Result<LowestNode, Memory>
    ensures table { IfOk result (λ node. node.table ≡ last_table (places_of block.now conjunct)) }
    ensures joint { IfOk result (λ node. node.joint ≡ is_joint (places_of block.now conjunct)) }
{
    let places = places_of(alloc, block, conjunct)?;
    Ok(LowestNode {
        table: last_table(places.as_slice()),
        joint: is_joint(places.as_slice()),
    })
}

/// Those of the conditions that stand at the scan of a table.
pub fn at_scan(
    alloc: Global,
    block: &Block,
    conjuncts: &[Conjunct],
    table: u32,
) -> Result<List<Conjunct>, Memory>
    ensures { IfOk result (λ here. here ≡ at_scan block.now conjuncts.now table) }
{
    let mut here = List::new(alloc);
    for conjunct in conjuncts {
        let node = lowest_node(alloc, block, *conjunct)?;
        if node.table == table && !node.joint {
            here.push(*conjunct)?;
        }
    }
    Ok(here)
}

/// Those of the conditions that stand at the join that adds a table.
pub fn at_join(
    alloc: Global,
    block: &Block,
    conjuncts: &[Conjunct],
    table: u32,
) -> Result<List<Conjunct>, Memory>
    ensures { IfOk result (λ here. here ≡ at_join block.now conjuncts.now table) }
{
    let mut here = List::new(alloc);
    for conjunct in conjuncts {
        let node = lowest_node(alloc, block, *conjunct)?;
        if node.table == table && node.joint {
            here.push(*conjunct)?;
        }
    }
    Ok(here)
}
