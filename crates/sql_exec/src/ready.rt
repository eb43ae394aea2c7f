//! A query made ready to be run: its FROM items one after the other, each with the conditions that
//! are judged as soon as one of its rows is chosen.

use crate::row_groups::RowGroups;
use prefsql_tables::AnswerRow;
use prefsql_values::{Boxed, CompareOp, List, Value};
use sql_tree::SqlPlace;

/// A condition made ready. A flag is true for the negated form.
#[cycle(ready)]
#[derive(Drop)]
pub(crate) enum ReadyCond {
    And(List<ReadyCond>),
    Or(List<ReadyCond>),
    Not(Boxed<ReadyCond>),
    Compare(CompareOp, ReadyScalar, ReadyScalar),
    /// The scalar, the lower bound and the upper bound.
    Between(bool, ReadyScalar, ReadyScalar, ReadyScalar),
    /// The scalar, and the list in which it is to stand.
    OneOf(bool, ReadyScalar, List<ReadyScalar>),
    IsNull(bool, ReadyScalar),
    /// Whether the search finds a scope.
    Exists(Boxed<ReadySearch>),
}

/// A scalar made ready.
#[cycle(ready)]
#[derive(Drop)]
pub(crate) enum ReadyScalar {
    Column(SqlPlace),
    Constant(Value),
    /// The number with the other sign.
    Negative(Boxed<ReadyScalar>),
    Sum(List<ReadyScalar>),
    /// The WHENs, and the value where none of them is True.
    Case(List<ReadyWhen>, Boxed<ReadyScalar>),
}

/// A WHEN of a CASE made ready, and the value after its THEN.
#[cycle(ready)]
#[derive(Drop)]
pub(crate) struct ReadyWhen {
    pub(crate) cond: ReadyCond,
    pub(crate) value: ReadyScalar,
}

/// The rows of a FROM item.
#[cycle(ready)]
#[derive(Drop)]
pub(crate) enum ReadyRows {
    All(List<AnswerRow>),
    /// Those whose value in the column of the groups is equal to the scalar. The flag is true where
    /// NULL is taken as equal to NULL.
    Equal(bool, ReadyScalar, RowGroups),
}

/// A FROM item made ready, and the conditions that are judged as soon as its row is chosen.
#[cycle(ready)]
#[derive(Drop)]
pub(crate) struct ReadyStep {
    pub(crate) rows: ReadyRows,
    pub(crate) tests: List<ReadyCond>,
}

/// A FROM and its WHERE made ready: the conditions that are judged before any row is chosen, and
/// the FROM items in their order.
#[cycle(ready)]
#[derive(Drop)]
pub(crate) struct ReadySearch {
    pub(crate) before: List<ReadyCond>,
    pub(crate) steps: List<ReadyStep>,
}
