//! The conditions of a block, and the columns that they read.
ghost use Rattle.std.specs.Prelude.{◌≡◌, ◌++◌, ◌<◌, ◌^◌, length, IfOk, OnOk};
ghost use Rattle.std.specs.List.{flat_map};
ghost use Rattle.conditions.specs.Places.{read_by, scalar_places};
ghost use Rattle.plan_algebra.specs.Conjuncts.{cond_places, onlys, places_of, wheres};

use conditions::{Cond, Scalar};
use plan_algebra::Conjunct;
use prefsql_tables::ColumnPlace;
use prefsql_values::Memory;
use query_meaning::Block;
use std::alloc::Global;

/// The conditions of WHERE, in their order.
pub fn wheres(alloc: Global, block: &Block) -> Result<Vec<Conjunct>, Memory>
    requires { length block.now.filter < 2 ^ 32 }
    ensures { IfOk result (λ found. found.items ≡ wheres block.now) }
{
    let mut found = Vec::new(alloc);
    for position in 0..block.filter.as_slice().len() as u32 {
        found.push(Conjunct::Filter(position))?;
    }
    Ok(found)
}

/// The conditions of BUT ONLY, in their order.
pub fn onlys(alloc: Global, block: &Block) -> Result<Vec<Conjunct>, Memory>
    requires { length block.now.only < 2 ^ 32 }
    ensures { IfOk result (λ found. found.items ≡ onlys block.now) }
{
    let mut found = Vec::new(alloc);
    for position in 0..block.only.as_slice().len() as u32 {
        found.push(Conjunct::Only(position))?;
    }
    Ok(found)
}

/// Adds the column that a scalar reads, if it reads one.
fn add_scalar_places(scalar: &Scalar, places: &mut Vec<ColumnPlace>) -> Result<(), Memory>
    ensures { OnOk result (places.new.items ≡ places.old.items ++ scalar_places scalar.now) }
{
    match scalar {
        Scalar::Column(place) => places.push(*place)?,
        Scalar::Literal(_) => {}
        Scalar::Quality(quality) => places.push(quality.place)?,
    }
    Ok(())
}

/// Adds the columns that the scalars of a list read.
fn add_list_places(scalars: &[Scalar], places: &mut Vec<ColumnPlace>) -> Result<(), Memory>
    ensures { OnOk result (places.new.items ≡ places.old.items
        ++ flat_map scalar_places scalars.now) }
{
    for scalar in scalars {
        add_scalar_places(scalar, places)?;
    }
    Ok(())
}

/// Adds the columns that a condition reads.
#[cycle(places)]
#[tactic(auto, using(conditions::proofs::PlaceReads::place_reads))]
fn add_places(cond: &Cond, places: &mut Vec<ColumnPlace>) -> Result<(), Memory>
    ensures { OnOk result (places.new.items ≡ places.old.items ++ read_by cond.now) }
{
    match cond {
        Cond::And(parts) => add_all_places(parts.as_slice(), places),
        Cond::Or(parts) => add_all_places(parts.as_slice(), places),
        Cond::Not(part) => add_places(part.get(), places),
        Cond::Compare(_, a, b) => {
            add_scalar_places(a, places)?;
            add_scalar_places(b, places)?;
            Ok(())
        }
        Cond::Between(_, a, low, high) => {
            add_scalar_places(a, places)?;
            add_scalar_places(low, places)?;
            add_scalar_places(high, places)?;
            Ok(())
        }
        Cond::OneOf(_, a, list) => {
            add_scalar_places(a, places)?;
            add_list_places(list.as_slice(), places)?;
            Ok(())
        }
        Cond::IsNull(_, a) => add_scalar_places(a, places),
        Cond::Top(quality) => {
            places.push(quality.place)?;
            Ok(())
        }
    }
}

/// Adds the columns that the parts of a condition read.
#[cycle(places)]
#[tactic(auto, using(conditions::proofs::PlaceReads::place_reads))]
fn add_all_places(parts: &[Cond], places: &mut Vec<ColumnPlace>) -> Result<(), Memory>
    ensures { OnOk result (places.new.items ≡ places.old.items ++ flat_map read_by parts.now) }
{
    for part in parts {
        add_places(part, places)?;
    }
    Ok(())
}

/// The columns that the condition at a position reads.
pub fn places_of(
    alloc: Global,
    block: &Block,
    conjunct: Conjunct,
) -> Result<Vec<ColumnPlace>, Memory>
    ensures { IfOk result (λ places. places.items ≡ places_of block.now conjunct) }
{
    let cond = match conjunct {
        Conjunct::Filter(position) => block.filter.as_slice().get(position as usize),
        Conjunct::Only(position) => block.only.as_slice().get(position as usize),
    };
    let mut places = Vec::new(alloc);
    if let Some(cond) = cond {
        add_places(cond, &mut places)?;
    }
    Ok(places)
}
