//! Preferences.

use crate::name::{LiteralTree, NameTree};
use prefsql_values::{Boxed, List};

/// The literals of a set, in the order in which they are written.
#[derive(Debug, Drop)]
pub struct SetTree {
    pub literals: List<LiteralTree>,
}

/// A pair of an explicit preference: `upper` is better than `lower`.
#[derive(Debug, Drop)]
pub struct EdgeTree {
    pub upper: LiteralTree,
    pub lower: LiteralTree,
}

/// The form of a base preference. A name is the column that is written after ELSE.
#[derive(Debug, Drop)]
pub enum BaseForm {
    Pos(SetTree),
    Neg(SetTree),
    PosPos(SetTree, NameTree, SetTree),
    PosNeg(SetTree, NameTree, SetTree),
    /// The sets before OTHERS, and those after it, which are none where OTHERS is not written.
    Layered(List<SetTree>, List<SetTree>),
    Explicit(List<EdgeTree>),
    Around(LiteralTree),
    /// The lower bound and the upper bound.
    Between(LiteralTree, LiteralTree),
    Lowest,
    Highest,
}

/// A base preference on a column.
#[derive(Debug, Drop)]
pub struct BaseTree {
    pub column: NameTree,
    pub form: BaseForm,
    /// Whether only equal values are alike, as with TRIVIAL and EXPLICIT.
    pub trivial: bool,
    /// The place of the preference's first byte.
    pub at: u32,
}

/// A preference.
#[derive(Debug, Drop)]
pub enum PrefTree {
    Base(BaseTree),
    /// Two or more parts of equal rank, which AND joins.
    Pareto(List<PrefTree>),
    /// Two or more parts, the most important one first, which CASCADE joins.
    Prior(List<PrefTree>),
    /// The part turned round, which DUAL makes.
    Dual(Boxed<PrefTree>),
}
