//! Conditions and what they compare.

use base_prefs::BasePref;
use prefsql_tables::ColumnPlace;
use prefsql_values::{Boxed, CompareOp, List, Value};

/// How good the value of a column is by a base preference (Kießling and Köstler 2002): its level
/// where the kind has levels, else its distance.
#[derive(Debug, Drop)]
pub struct Quality {
    /// The number, from 1, of the leaf that has the base preference.
    pub leaf: u32,
    pub place: ColumnPlace,
    pub base: BasePref,
}

/// What a condition compares or an output column shows.
#[derive(Debug, Drop)]
pub enum Scalar {
    Column(ColumnPlace),
    Literal(Value),
    Quality(Quality),
}

/// A condition. A flag is true for the negated form.
#[derive(Debug, Drop)]
pub enum Cond {
    And(List<Cond>),
    Or(List<Cond>),
    Not(Boxed<Cond>),
    Compare(CompareOp, Scalar, Scalar),
    /// The scalar, the lower bound and the upper bound.
    Between(bool, Scalar, Scalar, Scalar),
    /// The scalar, and the list in which it is to stand.
    OneOf(bool, Scalar, List<Scalar>),
    IsNull(bool, Scalar),
    /// Whether the quality is the best there is: level 1 or distance 0.
    Top(Quality),
}
