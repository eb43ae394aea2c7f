use crate::Wish;
use prefsql_tables::TableSet;
use prefsql_values::List;
use query_meaning::Block;
use sql_tree::SqlQuery;

/// What a run has to write.
#[derive(Drop)]
pub(crate) enum Work {
    /// What is to be written of each statement, over these tables.
    Statements(Wish, TableSet, List<Block>),
    /// The answer of each SQL query, over these tables.
    Queries(TableSet, List<SqlQuery>),
    /// The summary of the bench, over a table of so many rows.
    Bench(u32),
}
