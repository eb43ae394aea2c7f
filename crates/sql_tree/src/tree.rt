//! The trees of SQL queries whose names are resolved.

use prefsql_tables::{Schema, SortKey};
use prefsql_values::{Boxed, CompareOp, List, Text};

/// A column of a FROM item. `up` counts the enclosing queries, 0 for the query itself; all three
/// count from 0.
#[derive(Clone, Copy, Debug, PartialEq, Eq)]
pub struct SqlPlace {
    pub up: u32,
    pub item: u32,
    pub column: u32,
}

/// A term of a sum, with its sign.
#[cycle(sql)]
#[derive(Drop)]
pub struct SumTerm {
    pub minus: bool,
    pub scalar: SqlScalar,
}

/// A WHEN of a CASE, and the value after its THEN.
#[cycle(sql)]
#[derive(Drop)]
pub struct SqlWhen {
    pub cond: SqlCond,
    pub value: SqlScalar,
}

/// What a condition compares or an item shows.
#[cycle(sql)]
#[derive(Drop)]
pub enum SqlScalar {
    Column(SqlPlace),
    Number(i64),
    Chars(Text),
    /// Two or more terms, of which the first has no minus.
    Sum(List<SumTerm>),
    /// The WHENs, and the value after ELSE if it is written.
    Case(List<SqlWhen>, Option<Boxed<SqlScalar>>),
}

/// A condition. A flag is true for the negated form.
#[cycle(sql)]
#[derive(Drop)]
pub enum SqlCond {
    And(List<SqlCond>),
    Or(List<SqlCond>),
    Not(Boxed<SqlCond>),
    Compare(CompareOp, SqlScalar, SqlScalar),
    /// The scalar, the lower bound and the upper bound.
    Between(bool, SqlScalar, SqlScalar, SqlScalar),
    /// The scalar, and the list in which it is to stand.
    OneOf(bool, SqlScalar, List<SqlScalar>),
    IsNull(bool, SqlScalar),
    /// Whether the query has a row.
    Exists(Boxed<SqlQuery>),
}

/// An output column: what it shows and its name.
#[cycle(sql)]
#[derive(Drop)]
pub struct SqlItem {
    pub value: SqlScalar,
    pub name: Text,
}

/// A table: its position in the set of tables, its name there and its columns.
#[derive(Debug, Drop)]
pub struct SqlTable {
    pub index: u32,
    pub name: Text,
    pub schema: Schema,
}

/// Where the rows of a FROM item come from.
#[cycle(sql)]
#[derive(Drop)]
pub enum SqlSource {
    Table(SqlTable),
    /// A query of its own, which sees no rows round it.
    Derived(Boxed<SqlQuery>),
}

/// A FROM item: its correlation name and its rows.
#[cycle(sql)]
#[derive(Drop)]
pub struct SqlFrom {
    pub name: Text,
    pub source: SqlSource,
}

/// A query. Its order speaks of its items.
#[cycle(sql)]
#[derive(Drop)]
pub struct SqlQuery {
    pub distinct: bool,
    pub items: List<SqlItem>,
    pub from: List<SqlFrom>,
    pub filter: Option<SqlCond>,
    pub order: List<SortKey>,
}
