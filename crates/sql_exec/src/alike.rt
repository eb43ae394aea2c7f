//! Conditions that hold where two columns have the same value, or both have none.
ghost use Rattle.std.specs.Prelude.{◌≡◌, true, IfSome};
ghost use Rattle.prefsql_tables.specs.Table.{Tables};
ghost use Rattle.prefsql_values.specs.Truth.{both_true, is_true};
ghost use Rattle.prefsql_values.specs.Value.{comparison, is_null, truth_of, value_eq};
ghost use Rattle.prefsql_values.specs.declared.truth.Truth.TheVariants.{True};
ghost use Rattle.prefsql_values.specs.declared.value.CompareOp.TheVariants.{Eq};
ghost use Rattle.sql_tree.specs.Meaning.{Scopes, place_value};
ghost use Rattle.sql_exec.specs.Wrapping.{truth_in, value_in};

use prefsql_values::CompareOp;
use sql_tree::{SqlCond, SqlPlace, SqlScalar};

/// The places of the columns in `a = b OR a IS NULL AND b IS NULL`.
pub(crate) fn alike_places(cond: &SqlCond) -> Option<(SqlPlace, SqlPlace)>
    ensures { IfSome result (λ p. (tables : Tables) → (scopes : Scopes)
        → is_true (truth_in tables cond.now scopes)
        ≡ value_eq (place_value scopes p.0) (place_value scopes p.1)) }
{
    match cond {
        SqlCond::Or(parts) => {
            let parts = parts.as_slice();
            if parts.len() != 2 {
                return None;
            }
            let (a, b) = equal_places(&parts[0])?;
            let (c, d) = null_places(&parts[1])?;
            if a == c && b == d { Some((a, b)) } else { None }
        }
        _ => None,
    }
}

/// The places of the columns in `a = b`.
fn equal_places(cond: &SqlCond) -> Option<(SqlPlace, SqlPlace)>
    ensures { IfSome result (λ p. (tables : Tables) → (scopes : Scopes)
        → truth_in tables cond.now scopes
        ≡ comparison Eq (place_value scopes p.0) (place_value scopes p.1)) }
{
    match cond {
        SqlCond::Compare(op, a, b) => {
            if !is_equality(*op) {
                return None;
            }
            let a = column_place(a)?;
            let b = column_place(b)?;
            Some((a, b))
        }
        _ => None,
    }
}

/// The places of the columns in `a IS NULL AND b IS NULL`.
fn null_places(cond: &SqlCond) -> Option<(SqlPlace, SqlPlace)>
    ensures { IfSome result (λ p. (tables : Tables) → (scopes : Scopes)
        → truth_in tables cond.now scopes
        ≡ both_true (truth_of (is_null (place_value scopes p.0)))
        (both_true (truth_of (is_null (place_value scopes p.1))) True)) }
{
    match cond {
        SqlCond::And(parts) => {
            let parts = parts.as_slice();
            if parts.len() != 2 {
                return None;
            }
            let a = null_place(&parts[0])?;
            let b = null_place(&parts[1])?;
            Some((a, b))
        }
        _ => None,
    }
}

/// The place of the column in `a IS NULL`.
fn null_place(cond: &SqlCond) -> Option<SqlPlace>
    ensures { IfSome result (λ p. (tables : Tables) → (scopes : Scopes)
        → truth_in tables cond.now scopes ≡ truth_of (is_null (place_value scopes p))) }
{
    match cond {
        SqlCond::IsNull(negate, a) => {
            if *negate {
                return None;
            }
            let place = column_place(a)?;
            Some(place)
        }
        _ => None,
    }
}

/// The place of a scalar that is a column.
fn column_place(scalar: &SqlScalar) -> Option<SqlPlace>
    ensures { IfSome result (λ p. (tables : Tables) → (scopes : Scopes)
        → value_in tables scalar.now scopes ≡ place_value scopes p) }
{
    match scalar {
        SqlScalar::Column(place) => Some(*place),
        _ => None,
    }
}

/// Whether a comparison asks for equal values.
pub(crate) fn is_equality(op: CompareOp) -> bool
    ensures { result ≡ true → op ≡ Eq }
{
    match op {
        CompareOp::Eq => true,
        _ => false,
    }
}
