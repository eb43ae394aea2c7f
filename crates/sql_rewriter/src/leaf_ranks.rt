//! What a leaf ranks by, as a scalar over its column.
ghost use Rattle.std.specs.Prelude.{◌≡◌, ◌+◌, ◌<◌, ◌≤◌, ◌^◌, [], ◌∷◌, ◌++◌, length, map, filter, nat_eq, IfOk, OnOk, All, IsTrue};
ghost use Rattle.prefsql_values.specs.Limits.{IsLiteralValue};
ghost use Rattle.base_prefs.specs.declared.edge.ValueSet.{ValueSet};
ghost use Rattle.prefsql_values.specs.declared.value.CompareOp.TheVariants.{Lt, Gt};
ghost use Rattle.base_prefs.specs.Graph.{graph_level, graph_values, greatest};
ghost use Rattle.base_prefs.specs.Kind.{IsJudged, edges_of, is_explicit};
ghost use Rattle.sql_tree.specs.declared.tree.SqlCond.{Compare};
ghost use Rattle.sql_tree.specs.declared.tree.SqlScalar.{Number};
ghost use Rattle.rewritten_query.specs.Leaves.{cases, code_whens, greatest_level, is_among, less, level_whens, number, rank_scalar, set_whens, when_so};
ghost use Rattle.rewritten_query.specs.Names.{of_tables};

use crate::literals::{cases, is_among, less, literal, number};
use crate::names::of_tables;
use base_prefs::{BasePref, BaseView, ValueSet};
use prefsql_tables::ColumnPlace;
use prefsql_values::{CompareOp, List, Memory, Value};
use sql_tree::{SqlCond, SqlScalar, SqlWhen};
use std::alloc::Global;

/// The level of a column's value, its distance, or for LOWEST and HIGHEST the value.
pub(crate) fn rank_scalar(
    alloc: Global,
    base: &BasePref,
    place: ColumnPlace,
) -> Result<SqlScalar, Memory>
    ensures { IfOk result (λ scalar. scalar ≡ rank_scalar base.now (of_tables place)) }
{
    base.keeps_limits();
    match base.view() {
        BaseView::Pos(values) => by_set(alloc, place, values, 1, 2),
        BaseView::Neg(values) => by_set(alloc, place, values, 2, 1),
        BaseView::PosPos(first, second) => by_two_sets(alloc, place, first, second, 2, 3),
        BaseView::PosNeg(good, bad) => by_two_sets(alloc, place, good, bad, 3, 2),
        BaseView::Layered(before, after) => by_layers(alloc, place, before, after),
        BaseView::Explicit(values) => by_graph(alloc, place, base, values),
        BaseView::Around(center) => by_distance(alloc, place, center),
        BaseView::Between(low, up) => by_bounds(alloc, place, low, up),
        BaseView::Lowest | BaseView::Highest => Ok(of_tables(place)),
    }
}

/// One number inside the set and another outside.
fn by_set(
    alloc: Global,
    place: ColumnPlace,
    values: &[Value],
    inside: u32,
    outside: u32,
) -> Result<SqlScalar, Memory>
    requires { All IsLiteralValue values.now }
    ensures { IfOk result
        (λ scalar. scalar ≡ cases (when_so (is_among (of_tables place) values.now) (number inside)
        ∷ []) (number outside)) }
{
    let mut whens = List::new(alloc);
    whens.push(SqlWhen {
        cond: is_among(alloc, place, values)?,
        value: number(inside),
    })?;
    cases(alloc, whens, number(outside))
}

/// 1 in the first set, one number in the second, and another in neither.
fn by_two_sets(
    alloc: Global,
    place: ColumnPlace,
    first: &[Value],
    second: &[Value],
    in_second: u32,
    outside: u32,
) -> Result<SqlScalar, Memory>
    requires first_literal { All IsLiteralValue first.now }
    requires second_literal { All IsLiteralValue second.now }
    ensures { IfOk result
        (λ scalar. scalar ≡ cases (when_so (is_among (of_tables place) first.now) (number 1)
        ∷ when_so (is_among (of_tables place) second.now) (number in_second)
        ∷ []) (number outside)) }
{
    let mut whens = List::new(alloc);
    whens.push(SqlWhen {
        cond: is_among(alloc, place, first)?,
        value: number(1),
    })?;
    whens.push(SqlWhen {
        cond: is_among(alloc, place, second)?,
        value: number(in_second),
    })?;
    cases(alloc, whens, number(outside))
}

/// Adds one WHEN for each set in order, with the numbers from `first` on.
fn push_sets(
    alloc: Global,
    place: ColumnPlace,
    first: u32,
    sets: &[ValueSet],
    whens: &mut List<SqlWhen>,
) -> Result<(), Memory>
    requires few { first + length sets.now < 2 ^ 32 }
    requires literals { All (λ (s : ValueSet). All IsLiteralValue s.values) sets.now }
    ensures { OnOk result (whens.new ≡ whens.old ++ set_whens (of_tables place) first sets.now) }
{
    let mut number_of_set = first;
    for set in sets {
        whens.push(SqlWhen {
            cond: is_among(alloc, place, set.values.as_slice())?,
            value: number(number_of_set),
        })?;
        number_of_set += 1;
    }
    Ok(())
}

/// The number of the layer. OTHERS stands between the sets before it and those after it.
fn by_layers(
    alloc: Global,
    place: ColumnPlace,
    before: &[ValueSet],
    after: &[ValueSet],
) -> Result<SqlScalar, Memory>
    requires few { length before.now + length after.now ≤ 256 }
    requires before_literal { All (λ (s : ValueSet). All IsLiteralValue s.values) before.now }
    requires after_literal { All (λ (s : ValueSet). All IsLiteralValue s.values) after.now }
    ensures { IfOk result
        (λ scalar. scalar ≡ cases (set_whens (of_tables place) 1 before.now
        ++ set_whens (of_tables place) (length before.now + 2) after.now)
        (number (length before.now + 1))) }
{
    let others = before.len() as u32 + 1;
    let mut whens = List::new(alloc);
    push_sets(alloc, place, 1, before, &mut whens)?;
    push_sets(alloc, place, others + 1, after, &mut whens)?;
    cases(alloc, whens, number(others))
}

/// How far the value is from the center.
fn by_distance(alloc: Global, place: ColumnPlace, center: i64) -> Result<SqlScalar, Memory>
    ensures { IfOk result
        (λ scalar. scalar ≡ cases (when_so (Compare Lt (of_tables place) (Number center))
        (less (Number center) (of_tables place)) ∷ []) (less (of_tables place) (Number center))) }
{
    let mut whens = List::new(alloc);
    whens.push(SqlWhen {
        cond: SqlCond::Compare(CompareOp::Lt, of_tables(place), SqlScalar::Number(center)),
        value: less(alloc, SqlScalar::Number(center), of_tables(place))?,
    })?;
    let above = less(alloc, of_tables(place), SqlScalar::Number(center))?;
    cases(alloc, whens, above)
}

/// How far the value is outside the bounds.
fn by_bounds(alloc: Global, place: ColumnPlace, low: i64, up: i64) -> Result<SqlScalar, Memory>
    ensures { IfOk result
        (λ scalar. scalar ≡ cases
        (when_so (Compare Lt (of_tables place) (Number low)) (less (Number low) (of_tables place))
        ∷ when_so (Compare Gt (of_tables place) (Number up)) (less (of_tables place) (Number up))
        ∷ []) (number 0)) }
{
    let mut whens = List::new(alloc);
    whens.push(SqlWhen {
        cond: SqlCond::Compare(CompareOp::Lt, of_tables(place), SqlScalar::Number(low)),
        value: less(alloc, SqlScalar::Number(low), of_tables(place))?,
    })?;
    whens.push(SqlWhen {
        cond: SqlCond::Compare(CompareOp::Gt, of_tables(place), SqlScalar::Number(up)),
        value: less(alloc, of_tables(place), SqlScalar::Number(up))?,
    })?;
    cases(alloc, whens, number(0))
}

/// The level of a value of a graph, or 0 where the kind has no levels.
fn level(base: &BasePref, value: &Value) -> u32
    requires judged { IsJudged base.now value.now }
    requires explicit { IsTrue (is_explicit base.now) }
    ensures { result ≡ graph_level (edges_of base.now) value.now }
{
    match base.level(value.cell()) {
        Some(level) => level,
        None => 0,
    }
}

/// The values of the graph that have the level.
fn has_level(
    alloc: Global,
    place: ColumnPlace,
    base: &BasePref,
    values: &[Value],
    n: u32,
) -> Result<SqlCond, Memory>
    requires explicit { IsTrue (is_explicit base.now) }
    requires literals { All IsLiteralValue values.now }
    ensures { IfOk result
        (λ cond. cond ≡ is_among (of_tables place) (filter
        (λ v. nat_eq (graph_level (edges_of base.now) v) n) values.now)) }
{
    let mut list = List::new(alloc);
    for value in values {
        if level(base, value) == n {
            list.push(literal(alloc, value)?)?;
        }
    }
    Ok(SqlCond::OneOf(false, of_tables(place), list))
}

/// The greatest level of the values.
fn greatest(base: &BasePref, values: &[Value]) -> u32
    requires explicit { IsTrue (is_explicit base.now) }
    requires literals { All IsLiteralValue values.now }
    ensures { result ≡ greatest (map (graph_level (edges_of base.now)) values.now) }
{
    let mut greatest: u32 = 0;
    for value in values {
        greatest = greatest.max(level(base, value));
    }
    greatest
}

/// The level by the graph of EXPLICIT.
#[tactic(auto, using(crate::proofs::Views::level_pushed))]
fn by_graph(
    alloc: Global,
    place: ColumnPlace,
    base: &BasePref,
    values: &[Value],
) -> Result<SqlScalar, Memory>
    requires explicit { IsTrue (is_explicit base.now) }
    requires listed { values.now ≡ graph_values (edges_of base.now) }
    requires literals { All IsLiteralValue values.now }
    requires some { 0 < length values.now }
    requires few { length values.now ≤ 16 }
    ensures { IfOk result
        (λ scalar. scalar ≡ cases (level_whens (of_tables place) (edges_of base.now))
        (number (greatest_level (edges_of base.now) + 1))) }
{
    let greatest = greatest(base, values);
    let mut whens = List::new(alloc);
    for before in 0..greatest {
        let n = before + 1;
        whens.push(SqlWhen {
            cond: has_level(alloc, place, base, values, n)?,
            value: number(n),
        })?;
    }
    cases(alloc, whens, number(greatest + 1))
}

/// The code of a value of the graph, and 0 outside it.
pub(crate) fn code_scalar(
    alloc: Global,
    place: ColumnPlace,
    values: &[Value],
) -> Result<SqlScalar, Memory>
    requires few { length values.now ≤ 16 }
    requires literals { All IsLiteralValue values.now }
    ensures { IfOk result
        (λ scalar. scalar ≡ cases (code_whens (of_tables place) 1 values.now) (number 0)) }
{
    let mut whens = List::new(alloc);
    let mut code = 1;
    for value in values {
        whens.push(SqlWhen {
            cond: SqlCond::Compare(CompareOp::Eq, of_tables(place), literal(alloc, value)?),
            value: number(code),
        })?;
        code += 1;
    }
    cases(alloc, whens, number(0))
}
