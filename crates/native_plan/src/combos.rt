//! Lists of combinations for which some conditions are True.
ghost use Rattle.std.specs.Prelude.{◌≡◌, ◌<◌, ◌++◌, ◌∷◌, ℕ, [], All, IfOk, OnOk, filter, map};
ghost use Rattle.plan_algebra.specs.Meaning.{pairs_of, single_rows};
ghost use Rattle.native_plan.specs.Asking.{CanAskAll, holds_all};
ghost use Rattle.native_plan.specs.Combos.{pair, single};

use crate::asking::all_hold;
use plan_algebra::Conjunct;
use prefsql_tables::Combo;
use prefsql_values::{List, Memory};
use query_meaning::Asked;
use std::alloc::Global;

/// The rows of a table, each by itself, for which each condition is True.
pub(crate) fn singles(
    alloc: Global,
    asked: &Asked<'_>,
    conjuncts: &[Conjunct],
    first: u32,
    count: u32,
) -> Result<Vec<Combo>, Memory>
    requires { (row : ℕ) → row < count → CanAskAll asked.now conjuncts.now first (single row) }
    ensures { IfOk result
        (λ combos. combos.items
        ≡ filter (holds_all asked.now conjuncts.now first) (single_rows count)) }
{
    let mut combos = Vec::new(alloc);
    for row in 0..count {
        let combo = single(alloc, row)?;
        add(asked, conjuncts, first, combo, &mut combos)?;
    }
    Ok(combos)
}

/// The row by itself.
fn single(alloc: Global, row: u32) -> Result<Combo, Memory>
    ensures { IfOk result (λ combo. combo ≡ single row) }
{
    let mut rows = List::new(alloc);
    rows.push(row)?;
    Ok(Combo { rows })
}

/// Adds the combination where each condition is True.
pub(crate) fn add(
    asked: &Asked<'_>,
    conjuncts: &[Conjunct],
    first: u32,
    combo: Combo,
    combos: &mut Vec<Combo>,
) -> Result<(), Memory>
    requires { CanAskAll asked.now conjuncts.now first combo }
    ensures { OnOk result (combos.new.items ≡ combos.old.items
        ++ filter (holds_all asked.now conjuncts.now first) (combo ∷ [])) }
{
    if all_hold(asked, conjuncts, first, &combo) {
        combos.push(combo)?;
    }
    Ok(())
}

/// The pairs of one combination of each list, in lexicographic order, for which each condition is
/// True. Each pair is tested as it is made, and memory is kept for those alone that pass.
pub(crate) fn pairs(
    alloc: Global,
    asked: &Asked<'_>,
    conjuncts: &[Conjunct],
    first: u32,
    lefts: &[Combo],
    rights: &[Combo],
) -> Result<Vec<Combo>, Memory>
    requires { All (λ left. All
        (λ right. CanAskAll asked.now conjuncts.now first (pair left right)) rights.now) lefts.now }
    ensures { IfOk result
        (λ combos. combos.items
        ≡ filter (holds_all asked.now conjuncts.now first) (pairs_of lefts.now rights.now)) }
{
    let mut combos = Vec::new(alloc);
    for left in lefts {
        add_pairs(alloc, asked, conjuncts, first, left, rights, &mut combos)?;
    }
    Ok(combos)
}

/// Adds the pairs of one combination with each of a list.
fn add_pairs(
    alloc: Global,
    asked: &Asked<'_>,
    conjuncts: &[Conjunct],
    first: u32,
    left: &Combo,
    rights: &[Combo],
    combos: &mut Vec<Combo>,
) -> Result<(), Memory>
    requires { All (λ right. CanAskAll asked.now conjuncts.now first (pair left.now right))
        rights.now }
    ensures { OnOk result (combos.new.items ≡ combos.old.items
        ++ filter (holds_all asked.now conjuncts.now first) (map (pair left.now) rights.now)) }
{
    for right in rights {
        let both = joined(alloc, left, right)?;
        add(asked, conjuncts, first, both, combos)?;
    }
    Ok(())
}

/// The rows of both combinations.
pub(crate) fn joined(alloc: Global, left: &Combo, right: &Combo) -> Result<Combo, Memory>
    ensures { IfOk result (λ combo. combo ≡ pair left.now right.now) }
{
    let mut rows = Vec::new(alloc);
    rows.extend_from_slice(left.rows.as_slice())?;
    rows.extend_from_slice(right.rows.as_slice())?;
    Ok(Combo {
        rows: List::of(rows),
    })
}

/// Those of the combinations for which each condition is True.
pub(crate) fn kept(
    alloc: Global,
    asked: &Asked<'_>,
    conjuncts: &[Conjunct],
    first: u32,
    combos: Vec<Combo>,
) -> Result<Vec<Combo>, Memory>
    requires { All (CanAskAll asked.now conjuncts.now first) combos.items }
    ensures { IfOk result
        (λ kept. kept.items ≡ filter (holds_all asked.now conjuncts.now first) combos.items) }
{
    let mut kept = Vec::new(alloc);
    for combo in combos {
        add(asked, conjuncts, first, combo, &mut kept)?;
    }
    Ok(kept)
}
