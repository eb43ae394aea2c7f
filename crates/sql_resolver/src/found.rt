//! What is found of each part of a query: the tree that it is, or its first fault, and what the
//! parts round it need of it.

use crate::fault::Fault;
use crate::scope::{ScopeColumn, ScopeItem};
use prefsql_lexer::Spot;
use prefsql_values::{Domain, List, Text};
use sql_tree::{SqlCond, SqlFrom, SqlItem, SqlQuery, SqlScalar};

/// A scalar. Its bound is that of its numbers, and one more than the greatest that is allowed where
/// it exceeds that.
#[derive(Drop)]
pub struct FoundScalar {
    /// The place of its first byte.
    pub at: u32,
    pub domain: Option<Domain>,
    pub bound: Option<u128>,
    /// The name of a column that stands by itself.
    pub own_name: Option<Text>,
    pub tree: Result<SqlScalar, Fault>,
}

/// A term of a sum, and whether a minus stands before it.
#[derive(Drop)]
pub struct FoundTerm {
    pub minus: bool,
    pub scalar: FoundScalar,
}

/// A WHEN of a CASE.
#[derive(Drop)]
pub struct FoundWhen {
    pub cond: Result<SqlCond, Fault>,
    pub value: FoundScalar,
}

/// An output column, as it is written and as those round the query see it.
#[derive(Drop)]
pub struct FoundOutput {
    pub item: Result<SqlItem, Fault>,
    pub column: ScopeColumn,
}

/// A FROM item, its correlation name and the place of that.
#[derive(Drop)]
pub struct FoundFrom {
    pub name: Text,
    pub name_at: u32,
    pub item: Result<(SqlFrom, ScopeItem), Fault>,
}

/// A query without faults, and its columns.
#[derive(Drop)]
pub struct Selected {
    pub tree: SqlQuery,
    pub columns: List<ScopeColumn>,
}

/// A query, or its first fault, and the place of the word SELECT.
#[derive(Drop)]
pub struct FoundQuery {
    pub at: u32,
    pub selected: Result<Selected, Spot>,
}
