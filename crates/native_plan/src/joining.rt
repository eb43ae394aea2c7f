//! Joins that find the pairs of equal values by an index of the right part.
ghost use Rattle.std.specs.Prelude.{◌≡◌, ◌++◌, ◌<◌, All, IfOk, OnOk, filter, length, map};
ghost use Rattle.plan_algebra.specs.Meaning.{pairs_of};
ghost use Rattle.plan_groups.specs.Groups.{row_at};
ghost use Rattle.prefsql_tables.specs.Sight.{IsInSight};
ghost use Rattle.prefsql_values.specs.Value.{value_of};
ghost use Rattle.native_plan.specs.Asking.{CanAskAll, holds_all, sees};
ghost use Rattle.native_plan.specs.Combos.{pair};
ghost use Rattle.native_plan.specs.Joining.{AllEndAt, IsEquated};

use crate::combos::{add, joined};
use crate::equating::Equated;
use plan_algebra::Conjunct;
use prefsql_tables::{ColumnPlace, Combo, cell_in_sight};
use prefsql_values::{Cell, Memory};
use query_meaning::Asked;
use std::alloc::Global;
use value_index::ValueIndex;

/// The pairs of one combination of each list, in lexicographic order, for which each condition is
/// True, where one of the conditions asks for equal values in two columns. The right combinations
/// are found by their values, so that a pair whose values differ is never made; where a value is
/// NULL, there is no pair.
pub(crate) fn pairs_by_value(
    alloc: Global,
    asked: &Asked<'_>,
    conjuncts: &[Conjunct],
    columns: Equated,
    first: u32,
    middle: u32,
    lefts: &[Combo],
    rights: &[Combo],
) -> Result<Vec<Combo>, Memory>
    requires equated { IsEquated asked.now.block.now conjuncts.now middle columns }
    requires ends { AllEndAt first middle lefts.now }
    requires some_left { 0 < length lefts.now }
    requires some_right { 0 < length rights.now }
    requires askable { All (λ left. All
        (λ right. CanAskAll asked.now conjuncts.now first (pair left right)) rights.now) lefts.now }
    ensures { IfOk result
        (λ combos. combos.items
        ≡ filter (holds_all asked.now conjuncts.now first) (pairs_of lefts.now rights.now)) }
{
    let cells = cells_in(alloc, asked, columns.right, middle, rights)?;
    let index = ValueIndex::of(alloc, cells.as_slice())?;
    let mut combos = Vec::new(alloc);
    for left in lefts {
        let cell = cell_in_sight(columns.left, asked.tables, asked.from, first, left);
        let partners = index.places(cell);
        add_partners(
            alloc,
            asked,
            conjuncts,
            first,
            left,
            rights,
            partners,
            &mut combos,
        )?;
    }
    Ok(combos)
}

/// The cell that each of the combinations has in the column.
fn cells_in<'t>(
    alloc: Global,
    asked: &Asked<'t>,
    place: ColumnPlace,
    first: u32,
    combos: &[Combo],
) -> Result<Vec<Cell<'t>>, Memory>
    requires { All (λ combo.
        IsInSight asked.now.tables.now asked.now.from.now first combo.rows place) combos.now }
    ensures { IfOk result (λ cells. map value_of cells.items
        ≡ map (λ combo. sees asked.now first combo place) combos.now) }
{
    let mut cells = Vec::new(alloc);
    for combo in combos {
        cells.push(cell_in_sight(place, asked.tables, asked.from, first, combo))?;
    }
    Ok(cells)
}

/// Adds the pairs of one combination with those at some places of a list for which each condition
/// is True.
fn add_partners(
    alloc: Global,
    asked: &Asked<'_>,
    conjuncts: &[Conjunct],
    first: u32,
    left: &Combo,
    rights: &[Combo],
    places: &[usize],
    combos: &mut Vec<Combo>,
) -> Result<(), Memory>
    requires there { All (λ place. place < length rights.now) places.now }
    requires askable { All (λ right. CanAskAll asked.now conjuncts.now first (pair left.now right))
        rights.now }
    ensures { OnOk result (combos.new.items ≡ combos.old.items
        ++ filter (holds_all asked.now conjuncts.now first)
        (map (λ place. pair left.now (row_at rights.now place)) places.now)) }
{
    for place in places {
        let both = joined(alloc, left, &rights[*place])?;
        add(asked, conjuncts, first, both, combos)?;
    }
    Ok(())
}
