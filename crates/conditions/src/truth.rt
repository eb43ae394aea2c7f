//! The value of a scalar, and the truth of a condition, for a combination of rows.
ghost use Rattle.std.specs.Prelude.{◌≡◌, ◌↔◌, ◌⊎◌, pos, Some, IsTrue, All, map};
ghost use Rattle.prefsql_values.specs.Truth.{all_true, any_true};
ghost use Rattle.prefsql_values.specs.declared.value.Value.{Value};
ghost use Rattle.prefsql_values.specs.Value.{value_of, one_of};
ghost use Rattle.prefsql_tables.specs.Sight.{sight};
ghost use Rattle.base_prefs.specs.Kind.{IsBetter, IsJudged, level_of, distance_of};
ghost use Rattle.conditions.specs.Fits.{CondFits, QualityFits, ScalarFits};
ghost use Rattle.conditions.specs.Meaning.{is_best, quality_of, scalar_value, truth};

use crate::condition::{Cond, Quality, Scalar};
use prefsql_tables::{Combo, TableSet, cell_in_sight};
use prefsql_values::{
    Cell, CompareOp, Truth, and, compares, is_between, is_null, negated_if, not, or, truth_of,
};

/// The value of a scalar for a combination of rows. `from` has the position in the set of each FROM
/// table, and the combination is of the FROM tables from position `first` on.
///
/// Needs places that are in the combination. A quality needs a column without NULL, of numbers for
/// AROUND and BETWEEN, and a base preference with a level or a distance.
pub fn scalar_cell<'a>(
    scalar: &'a Scalar,
    tables: &'a TableSet,
    from: &[u32],
    first: u32,
    combo: &Combo,
) -> Cell<'a>
    requires { ScalarFits tables.now from.now first combo.now.rows scalar.now }
    ensures { value_of result
        ≡ scalar_value (sight tables.now from.now first combo.now.rows) scalar.now }
{
    match scalar {
        Scalar::Column(place) => cell_in_sight(*place, tables, from, first, combo),
        Scalar::Literal(value) => value.cell(),
        Scalar::Quality(quality) => quality_cell(
            quality,
            judged_cell(quality, tables, from, first, combo),
        ),
    }
}

/// The cell that a combination has in the column of a quality.
#[tactic(auto, using(crate::proofs::Judged::quality_judged))]
fn judged_cell<'a>(
    quality: &Quality,
    tables: &'a TableSet,
    from: &[u32],
    first: u32,
    combo: &Combo,
) -> Cell<'a>
    requires { QualityFits tables.now from.now first combo.now.rows quality.now }
    ensures value { value_of result
        ≡ sight tables.now from.now first combo.now.rows quality.now.place }
    ensures judged { IsJudged quality.now.base (value_of result) }
{
    tables.keeps_limits();
    cell_in_sight(quality.place, tables, from, first, combo)
}

/// The level of a cell as a number, else its distance.
fn quality_cell<'a>(quality: &Quality, cell: Cell<'_>) -> Cell<'a>
    requires { IsJudged quality.now.base (value_of cell) }
    ensures { value_of result ≡ quality_of (level_of quality.now.base (value_of cell.entry))
        (distance_of quality.now.base (value_of cell.entry)) }
{
    match quality.base.level(cell) {
        Some(level) => Cell::Num(i128::from(level)),
        None => match quality.base.distance(cell) {
            Some(distance) => Cell::Num(distance),
            None => Cell::Null,
        },
    }
}

/// Whether a cell has level 1 or distance 0. No value is better than one that has.
#[tactic(auto, using(crate::proofs::BestLaws::none_better))]
fn is_best(quality: &Quality, cell: Cell<'_>) -> bool
    requires { IsJudged quality.now.base (value_of cell) }
    ensures test { result ≡ is_best (level_of quality.now.base (value_of cell.entry))
        (distance_of quality.now.base (value_of cell.entry)) }
    ensures meaning { IsTrue result ↔ ((level_of quality.now.base (value_of cell.entry) ≡ Some 1)
        ⊎ (distance_of quality.now.base (value_of cell.entry) ≡ Some (pos 0))) }
    ensures none_better { IsTrue result → (better : Value)
        → ¬ IsBetter quality.now.base better (value_of cell.entry) }
{
    quality.base.keeps_limits();
    match quality.base.level(cell) {
        Some(level) => level == 1,
        None => match quality.base.distance(cell) {
            Some(distance) => distance == 0,
            None => false,
        },
    }
}

/// The truth of a condition for a combination of rows. It needs what `scalar_cell` needs of each of
/// its scalars.
#[cycle(holds)]
#[tactic(auto, using(crate::proofs::CondReads::truth_reads))]
pub fn holds(cond: &Cond, tables: &TableSet, from: &[u32], first: u32, combo: &Combo) -> Truth
    requires { CondFits tables.now from.now first combo.now.rows cond.now }
    ensures { result ≡ truth (sight tables.now from.now first combo.now.rows) cond.now }
{
    match cond {
        Cond::And(parts) => all_hold(parts.as_slice(), tables, from, first, combo),
        Cond::Or(parts) => any_holds(parts.as_slice(), tables, from, first, combo),
        Cond::Not(part) => not(holds(part.get(), tables, from, first, combo)),
        Cond::Compare(op, a, b) => {
            let a = scalar_cell(a, tables, from, first, combo);
            let b = scalar_cell(b, tables, from, first, combo);
            compares(*op, a, b)
        }
        Cond::Between(negate, a, low, high) => {
            let a = scalar_cell(a, tables, from, first, combo);
            let low = scalar_cell(low, tables, from, first, combo);
            let high = scalar_cell(high, tables, from, first, combo);
            negated_if(*negate, is_between(a, low, high))
        }
        Cond::OneOf(negate, a, list) => {
            let a = scalar_cell(a, tables, from, first, combo);
            let found = is_one_of(a, list.as_slice(), tables, from, first, combo);
            negated_if(*negate, found)
        }
        Cond::IsNull(negate, a) => {
            let a = scalar_cell(a, tables, from, first, combo);
            negated_if(*negate, truth_of(is_null(a)))
        }
        Cond::Top(quality) => {
            let cell = judged_cell(quality, tables, from, first, combo);
            truth_of(is_best(quality, cell))
        }
    }
}

/// AND of the parts. After a part that is False no other is asked.
#[cycle(holds)]
#[tactic(auto, using(crate::proofs::Truths::truths))]
fn all_hold(parts: &[Cond], tables: &TableSet, from: &[u32], first: u32, combo: &Combo) -> Truth
    requires { All (CondFits tables.now from.now first combo.now.rows) parts.now }
    ensures { result ≡ all_true
        (map (truth (sight tables.now from.now first combo.now.rows)) parts.now) }
{
    let mut so_far = Truth::True;
    for part in parts {
        so_far = and(so_far, holds(part, tables, from, first, combo));
        if so_far == Truth::False {
            return Truth::False;
        }
    }
    so_far
}

/// OR of the parts. After a part that is True no other is asked.
#[cycle(holds)]
#[tactic(auto, using(crate::proofs::Truths::truths))]
fn any_holds(parts: &[Cond], tables: &TableSet, from: &[u32], first: u32, combo: &Combo) -> Truth
    requires { All (CondFits tables.now from.now first combo.now.rows) parts.now }
    ensures { result ≡ any_true
        (map (truth (sight tables.now from.now first combo.now.rows)) parts.now) }
{
    let mut so_far = Truth::False;
    for part in parts {
        so_far = or(so_far, holds(part, tables, from, first, combo));
        if so_far == Truth::True {
            return Truth::True;
        }
    }
    so_far
}

/// Whether a value is equal to one of the list. After an equal one no other is asked.
#[tactic(auto, using(crate::proofs::Truths::truths))]
fn is_one_of(
    cell: Cell<'_>,
    list: &[Scalar],
    tables: &TableSet,
    from: &[u32],
    first: u32,
    combo: &Combo,
) -> Truth
    requires { All (ScalarFits tables.now from.now first combo.now.rows) list.now }
    ensures { result ≡ one_of (value_of cell.entry)
        (map (scalar_value (sight tables.now from.now first combo.now.rows)) list.now) }
{
    let mut so_far = Truth::False;
    for item in list {
        let item = scalar_cell(item, tables, from, first, combo);
        so_far = or(so_far, compares(CompareOp::Eq, cell, item));
        if so_far == Truth::True {
            return Truth::True;
        }
    }
    so_far
}
