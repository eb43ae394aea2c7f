//! Queries whose names are resolved.

use conditions::{Cond, Scalar};
use pref_terms::Term;
use prefsql_tables::{ColumnPlace, Schema, SortKey};
use prefsql_values::{List, Text};

/// A FROM table: its position in the set of tables, its name there and its columns.
#[derive(Debug, Drop)]
pub struct FromTable {
    pub index: u32,
    pub name: Text,
    pub schema: Schema,
}

/// An output column: its name and what it shows.
#[derive(Debug, Drop)]
pub struct Output {
    pub name: Text,
    pub scalar: Scalar,
}

/// A query whose names are resolved. It asks for the candidates, which pass the filter, that no
/// candidate of their group is better than by the term (Kießling and Köstler 2002), and of these
/// for the ones that pass `only`.
#[derive(Debug, Drop)]
pub struct Block {
    pub distinct: bool,
    pub output: List<Output>,
    pub from: List<FromTable>,
    /// The conditions of WHERE that AND joins.
    pub filter: List<Cond>,
    /// The preference of PREFERRING.
    pub term: Option<Term>,
    /// The columns of GROUPING, each once.
    pub groups: List<ColumnPlace>,
    /// The conditions of BUT ONLY that AND joins.
    pub only: List<Cond>,
    /// The keys of ORDER BY, which speak of output columns.
    pub order: List<SortKey>,
}
