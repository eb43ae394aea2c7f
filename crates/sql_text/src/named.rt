//! The trees of SQL scripts as the grammar builds them, whose columns and tables are names. A place
//! is the number of bytes of the script before it.

use prefsql_values::{Boxed, CompareOp, List, Text};
use query_tree::{FromTree, LiteralTree, NameTree, OrderTree};

/// A term of a sum, and whether a minus stands before it.
#[cycle(named)]
#[derive(Drop)]
pub struct NamedTerm {
    pub minus: bool,
    pub scalar: NamedScalar,
}

/// `WHEN cond THEN value`.
#[cycle(named)]
#[derive(Drop)]
pub struct NamedWhen {
    pub cond: NamedCond,
    pub value: NamedScalar,
}

/// What an item gives or a condition compares.
#[cycle(named)]
#[derive(Drop)]
pub enum NamedScalar {
    Column(NameTree),
    Literal(LiteralTree),
    /// Two or more terms, in the order in which they are written.
    Sum(List<NamedTerm>),
    /// The place of the word CASE, the WHENs, and the value of ELSE, if it is written.
    Case(u32, List<NamedWhen>, Option<Boxed<NamedScalar>>),
}

/// A condition. A flag is true for the negated form.
#[cycle(named)]
#[derive(Drop)]
pub enum NamedCond {
    /// Two or more parts, in the order in which they are written.
    And(List<NamedCond>),
    /// Two or more parts, in the order in which they are written.
    Or(List<NamedCond>),
    Not(Boxed<NamedCond>),
    Compare(CompareOp, NamedScalar, NamedScalar),
    /// The scalar, the lower bound and the upper bound.
    Between(bool, NamedScalar, NamedScalar, NamedScalar),
    OneOf(bool, NamedScalar, List<NamedScalar>),
    IsNull(bool, NamedScalar),
    Exists(Boxed<NamedQuery>),
}

/// What a query puts out in one column, and the name after it, if one is written.
#[cycle(named)]
#[derive(Drop)]
pub struct NamedItem {
    pub value: NamedScalar,
    pub name: Option<Text>,
}

/// What a query puts out: `*` or a list of items.
#[cycle(named)]
#[derive(Drop)]
pub enum NamedSelect {
    All,
    Items(List<NamedItem>),
}

/// A FROM item.
#[cycle(named)]
#[derive(Drop)]
pub enum NamedFrom {
    Table(FromTree),
    /// A query in parentheses, its name, and the place of the name.
    Derived(Boxed<NamedQuery>, Text, u32),
}

/// A query without an order.
#[cycle(named)]
#[derive(Drop)]
pub struct NamedQuery {
    /// The place of the word SELECT.
    pub at: u32,
    pub distinct: bool,
    pub select: NamedSelect,
    pub from: List<NamedFrom>,
    /// The condition of WHERE.
    pub filter: Option<NamedCond>,
}

/// A query with the order of its rows, which is empty where none is written.
#[derive(Drop)]
pub struct NamedStatement {
    pub query: NamedQuery,
    pub order: List<OrderTree>,
}
