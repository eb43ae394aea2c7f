//! Literals, sets and choices.
ghost use Rattle.std.specs.Prelude.{◌≡◌, [], ◌∷◌, IfOk, All, Some};
ghost use Rattle.prefsql_values.specs.Limits.{IsLiteralValue};
ghost use Rattle.rewritten_query.specs.Leaves.{cases, is_among, less, literal, number, when_so};
ghost use Rattle.rewritten_query.specs.Names.{of_tables};

use crate::names::of_tables;
use prefsql_tables::ColumnPlace;
use prefsql_values::{Boxed, List, Memory, Value};
use sql_tree::{SqlCond, SqlScalar, SqlWhen, SumTerm};
use std::alloc::Global;

/// A number.
pub(crate) fn number(n: u32) -> SqlScalar
    ensures { result ≡ number n }
{
    SqlScalar::Number(i64::from(n))
}

/// A literal.
pub(crate) fn literal(alloc: Global, value: &Value) -> Result<SqlScalar, Memory>
    requires { IsLiteralValue value.now }
    ensures { IfOk result (λ scalar. scalar ≡ literal value.now) }
{
    match value {
        Value::Num(n) => Ok(SqlScalar::Number(*n as i64)),
        Value::Str(text) => Ok(SqlScalar::Chars(text.copy(alloc)?)),
        Value::Null => Ok(SqlScalar::Case(List::new(alloc), None)),
    }
}

/// Whether a column of the tables is one of the values.
pub(crate) fn is_among(
    alloc: Global,
    place: ColumnPlace,
    values: &[Value],
) -> Result<SqlCond, Memory>
    requires { All IsLiteralValue values.now }
    ensures { IfOk result (λ cond. cond ≡ is_among (of_tables place) values.now) }
{
    let mut list = List::new(alloc);
    for value in values {
        list.push(literal(alloc, value)?)?;
    }
    Ok(SqlCond::OneOf(false, of_tables(place), list))
}

/// A choice among the WHENs, and the value where none is True.
pub(crate) fn cases(
    alloc: Global,
    whens: List<SqlWhen>,
    otherwise: SqlScalar,
) -> Result<SqlScalar, Memory>
    ensures { IfOk result (λ scalar. scalar ≡ cases whens otherwise) }
{
    Ok(SqlScalar::Case(whens, Some(Boxed::new(alloc, otherwise)?)))
}

/// The difference of two scalars.
pub(crate) fn less(alloc: Global, a: SqlScalar, b: SqlScalar) -> Result<SqlScalar, Memory>
    ensures { IfOk result (λ scalar. scalar ≡ less a b) }
{
    let mut terms = List::new(alloc);
    terms.push(SumTerm {
        minus: false,
        scalar: a,
    })?;
    terms.push(SumTerm {
        minus: true,
        scalar: b,
    })?;
    Ok(SqlScalar::Sum(terms))
}
