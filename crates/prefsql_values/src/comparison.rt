ghost use Rattle.std.specs.Prelude.{◌≡◌, ◌↔◌, ◌||◌, IsTrue, IsNone};
ghost use Rattle.prefsql_values.specs.Value.{value_of, value_eq, value_order, nulls_last, comparison, between, admits, is_null};

use crate::code_points::text_order;
use crate::truth::{Truth, and, truth_of};
use crate::value::{Cell, CompareOp};
use std::cmp::Ordering;

impl CompareOp {
    /// Whether the operator holds of two values in this order.
    fn admits(self, ordering: Ordering) -> bool
        ensures { result ≡ admits self ordering }
    {
        match self {
            CompareOp::Eq => ordering == Ordering::Equal,
            CompareOp::Ne => ordering != Ordering::Equal,
            CompareOp::Lt => ordering == Ordering::Less,
            CompareOp::Le => ordering != Ordering::Greater,
            CompareOp::Gt => ordering == Ordering::Greater,
            CompareOp::Ge => ordering != Ordering::Less,
        }
    }
}

/// The order of two values: numbers by size, texts by their code points. It is None exactly where
/// one is NULL.
///
/// Values of two domains are not compared by any query; here a number is before a text.
pub fn compare(a: Cell<'_>, b: Cell<'_>) -> Option<Ordering>
    ensures order { result ≡ value_order (value_of a.entry) (value_of b.entry) }
    ensures null { IsNone result ↔ IsTrue (is_null (value_of a.entry)
        || is_null (value_of b.entry)) }
{
    match (a, b) {
        (Cell::Null, _) | (_, Cell::Null) => None,
        _ => Some(order_nulls_last(a, b)),
    }
}

/// A comparison of SQL (ISO/IEC 9075:1992), which is Unknown exactly where one side is NULL.
pub fn compares(op: CompareOp, a: Cell<'_>, b: Cell<'_>) -> Truth
    ensures truth { result ≡ comparison op (value_of a.entry) (value_of b.entry) }
    ensures unknown { (result ≡ Truth.Unknown) ↔ IsTrue (is_null (value_of a.entry)
        || is_null (value_of b.entry)) }
{
    match compare(a, b) {
        None => Truth::Unknown,
        Some(ordering) => truth_of(op.admits(ordering)),
    }
}

/// Whether a value lies between two others, or is one of them, as BETWEEN asks it (ISO/IEC
/// 9075:1992).
pub fn is_between(cell: Cell<'_>, low: Cell<'_>, high: Cell<'_>) -> Truth
    ensures { result ≡ between (value_of cell.entry) (value_of low.entry) (value_of high.entry) }
{
    let above = compares(CompareOp::Ge, cell, low);
    let below = compares(CompareOp::Le, cell, high);
    and(above, below)
}

/// Whether a value is NULL.
pub fn is_null(cell: Cell<'_>) -> bool
    ensures { result ≡ is_null (value_of cell.entry) }
{
    matches!(cell, Cell::Null)
}

/// Whether the two values are not distinct: both are NULL, or both are equal values.
pub fn not_distinct(a: Cell<'_>, b: Cell<'_>) -> bool
    ensures test { result ≡ value_eq (value_of a.entry) (value_of b.entry) }
    ensures same { IsTrue result ↔ (value_of a.entry ≡ value_of b.entry) }
{
    match (a, b) {
        (Cell::Num(m), Cell::Num(n)) => m == n,
        (Cell::Str(s), Cell::Str(t)) => s == t,
        (Cell::Null, Cell::Null) => true,
        _ => false,
    }
}

/// The order of two values in which NULL is last and two NULLs are equal: numbers by size, texts by
/// their code points.
pub fn order_nulls_last(a: Cell<'_>, b: Cell<'_>) -> Ordering
    ensures { result ≡ nulls_last (value_of a.entry) (value_of b.entry) }
{
    match (a, b) {
        (Cell::Num(m), Cell::Num(n)) => m.cmp(&n),
        (Cell::Str(s), Cell::Str(t)) => text_order(s, t),
        (Cell::Null, Cell::Null) => Ordering::Equal,
        (Cell::Num(_), _) | (_, Cell::Null) => Ordering::Less,
        _ => Ordering::Greater,
    }
}
