//! Conditions and what they compare.

use crate::name::{LiteralTree, NameTree};
use prefsql_values::{Boxed, CompareOp, List};

/// What a condition compares or an item gives.
#[derive(Debug, Drop)]
pub enum ScalarTree {
    Column(NameTree),
    Literal(LiteralTree),
    /// `LEVEL(column)`, and the place of the word LEVEL.
    Level(NameTree, u32),
    /// `DISTANCE(column)`, and the place of the word DISTANCE.
    Distance(NameTree, u32),
}

/// A condition. A flag is true for the negated form.
#[derive(Debug, Drop)]
pub enum CondTree {
    /// Two or more parts, in the order in which they are written.
    And(List<CondTree>),
    /// Two or more parts, in the order in which they are written.
    Or(List<CondTree>),
    Not(Boxed<CondTree>),
    Compare(CompareOp, ScalarTree, ScalarTree),
    /// The scalar, the lower bound and the upper bound.
    Between(bool, ScalarTree, ScalarTree, ScalarTree),
    /// The scalar, and the list in which it is to stand.
    OneOf(bool, ScalarTree, List<ScalarTree>),
    IsNull(bool, ScalarTree),
    /// `TOP(column)`.
    Top(NameTree),
}
