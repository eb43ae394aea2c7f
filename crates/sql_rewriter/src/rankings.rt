//! Which of two candidates is better, as conditions on what their leaves rank by.
ghost use Rattle.std.specs.Prelude.{◌≡◌, ◌+◌, ◌<◌, ◌≤◌, ◌^◌, [], ◌∷◌, ◌++◌, length, map, slice_index_or, IfOk, IsTrue};
ghost use Rattle.prefsql_values.specs.declared.value.CompareOp.TheVariants.{Eq, Lt};
ghost use Rattle.prefsql_values.specs.declared.value.Value.TheVariants.{Null};
ghost use Rattle.base_prefs.specs.Graph.{graph_values, is_above};
ghost use Rattle.base_prefs.specs.Kind.{edges_of, is_explicit};
ghost use Rattle.sql_tree.specs.declared.tree.SqlCond.{Compare, Or};
ghost use Rattle.pref_terms.specs.Terms.{leaves_of};
ghost use Rattle.rewritten_query.specs.Leaves.{number};
ghost use Rattle.rewritten_query.specs.Rankings.{code_part, code_parts, codes_where, kind_better, lower_side, of_candidate, of_rival, upper_side};

use crate::literals::number;
use crate::names::column_up;
use base_prefs::{BasePref, BaseView};
use prefsql_values::{CompareOp, List, Memory, Value};
use sql_tree::{SqlCond, SqlScalar};
use std::alloc::Global;

/// A column of the rival, which the inner query goes through.
pub(crate) fn of_rival(column: u32) -> SqlScalar
    ensures { result ≡ of_rival column }
{
    column_up(0, column)
}

/// A column of the candidate round it.
pub(crate) fn of_candidate(column: u32) -> SqlScalar
    ensures { result ≡ of_candidate column }
{
    column_up(1, column)
}

/// A column of the one that is to be better: of the rival, or turned round of the candidate.
fn of_upper(turned: bool, column: u32) -> SqlScalar
    ensures { result ≡ upper_side turned column }
{
    if turned {
        of_candidate(column)
    } else {
        of_rival(column)
    }
}

/// A column of the other.
fn of_lower(turned: bool, column: u32) -> SqlScalar
    ensures { result ≡ lower_side turned column }
{
    if turned {
        of_rival(column)
    } else {
        of_candidate(column)
    }
}

fn compared(op: CompareOp, turned: bool, column: u32) -> SqlCond
    ensures { result ≡ Compare op (upper_side turned column) (lower_side turned column) }
{
    SqlCond::Compare(op, of_upper(turned, column), of_lower(turned, column))
}

/// 0, and the codes of the values that the value at the place is above.
fn codes_below(
    alloc: Global,
    base: &BasePref,
    values: &[Value],
    upper: usize,
) -> Result<List<SqlScalar>, Memory>
    requires explicit { IsTrue (is_explicit base.now) }
    requires listed { values.now ≡ graph_values (edges_of base.now) }
    requires few { length values.now ≤ 16 }
    requires within { upper < length values.now }
    ensures { IfOk result
        (λ codes. codes ≡ number 0
        ∷ map number (codes_where
        (is_above (edges_of base.now) (slice_index_or values.now upper Null)) 1 values.now)) }
{
    let mut codes = List::new(alloc);
    codes.push(number(0))?;
    for lower in 0..values.len() {
        if base.graph_better(upper, lower) {
            codes.push(number(lower as u32 + 1))?;
        }
    }
    Ok(codes)
}

/// The upper one has the code of the value at the place, and the lower one is outside the graph or
/// has a code below it.
fn code_part(
    alloc: Global,
    base: &BasePref,
    turned: bool,
    column: u32,
    values: &[Value],
    upper: usize,
) -> Result<SqlCond, Memory>
    requires explicit { IsTrue (is_explicit base.now) }
    requires listed { values.now ≡ graph_values (edges_of base.now) }
    requires few { length values.now ≤ 16 }
    requires within { upper < length values.now }
    ensures { IfOk result
        (λ cond. cond ≡ code_part (upper_side turned) (lower_side turned) (edges_of base.now) column
        (upper + 1) (slice_index_or values.now upper Null)) }
{
    let mut parts = List::new(alloc);
    let code = number(upper as u32 + 1);
    parts.push(SqlCond::Compare(CompareOp::Eq, of_upper(turned, column), code))?;
    let codes = codes_below(alloc, base, values, upper)?;
    parts.push(SqlCond::OneOf(false, of_lower(turned, column), codes))?;
    Ok(SqlCond::And(parts))
}

/// One part for each value of the graph.
fn code_parts(
    alloc: Global,
    base: &BasePref,
    turned: bool,
    column: u32,
    values: &[Value],
) -> Result<List<SqlCond>, Memory>
    requires explicit { IsTrue (is_explicit base.now) }
    requires listed { values.now ≡ graph_values (edges_of base.now) }
    requires few { length values.now ≤ 16 }
    ensures { IfOk result
        (λ parts. parts ≡ code_parts (upper_side turned) (lower_side turned) (edges_of base.now)
        column 1 values.now) }
{
    let mut parts = List::new(alloc);
    for upper in 0..values.len() {
        parts.push(code_part(alloc, base, turned, column, values, upper)?)?;
    }
    Ok(parts)
}

/// The rival, or turned round the candidate, is better by the base preference, whose rank stands in
/// the column, and behind it the code of an EXPLICIT one.
pub(crate) fn kind_better(
    alloc: Global,
    base: &BasePref,
    turned: bool,
    column: u32,
) -> Result<SqlCond, Memory>
    requires { column < 2 ^ 31 }
    ensures { IfOk result
        (λ cond. cond ≡ kind_better (upper_side turned) (lower_side turned) base.now column) }
{
    base.keeps_limits();
    match base.view() {
        BaseView::Explicit(values) => Ok(SqlCond::Or(code_parts(
            alloc,
            base,
            turned,
            column + 1,
            values,
        )?)),
        BaseView::Highest => Ok(compared(CompareOp::Gt, turned, column)),
        BaseView::Pos(_) => Ok(compared(CompareOp::Lt, turned, column)),
        BaseView::Neg(_) => Ok(compared(CompareOp::Lt, turned, column)),
        BaseView::PosPos(_, _) => Ok(compared(CompareOp::Lt, turned, column)),
        BaseView::PosNeg(_, _) => Ok(compared(CompareOp::Lt, turned, column)),
        BaseView::Layered(_, _) => Ok(compared(CompareOp::Lt, turned, column)),
        BaseView::Around(_) => Ok(compared(CompareOp::Lt, turned, column)),
        BaseView::Between(_, _) => Ok(compared(CompareOp::Lt, turned, column)),
        BaseView::Lowest => Ok(compared(CompareOp::Lt, turned, column)),
    }
}
