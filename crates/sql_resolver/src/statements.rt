//! Statements and scripts.

ghost use Rattle.std.specs.Prelude.{◌≡◌, IfErr, IfOk, Ok};
ghost use Rattle.sql_resolver.specs.Ordered as spec;
ghost use Rattle.sql_resolver.specs.Statements.{script_reading, statement_reading, with_order};

use crate::fault::all_of;
use crate::found::Selected;
use crate::order::keys;
use crate::query::spotted;
use crate::resolver::query;
use prefsql_lexer::Spot;
use prefsql_tables::{SortKey, TableSet};
use prefsql_values::{List, Memory};
use query_tree::OrderTree;
use sql_text::NamedStatement;
use sql_tree::SqlQuery;
use std::alloc::Global;

/// Why there are no queries: the first thing that a statement owes and does not keep, or want of
/// memory.
#[derive(Clone, Copy, Debug, PartialEq, Eq)]
pub enum ResolveFault {
    /// E301 to E305, E314 to E316 and E401, with its place.
    Bad(Spot),
    /// Want of memory, or of room for a number in a tree.
    Memory,
}

impl From<Memory> for ResolveFault {
    ghost use Rattle.std.specs.Prelude.{◌≡◌};
    ghost use Rattle.sql_resolver.specs.declared.statements.ResolveFault.TheVariants.{Memory};

    ghost from_gives = { λ _ fault. fault ≡ Memory };

    fn from(_memory: Memory) -> ResolveFault {
        ResolveFault::Memory
    }
}

/// The query with its order.
fn with_order(query: SqlQuery, keys: List<SortKey>) -> SqlQuery
    ensures { result ≡ with_order keys query }
{
    let SqlQuery {
        distinct,
        items,
        from,
        filter,
        order: _,
    } = query;
    SqlQuery {
        distinct,
        items,
        from,
        filter,
        order: keys,
    }
}

/// A query with the keys of its order.
fn with_keys(query: SqlQuery, keys: Result<List<SortKey>, Spot>) -> Result<SqlQuery, Spot>
    ensures { result ≡ spec.with_keys query keys }
{
    match keys {
        Ok(keys) => Ok(with_order(query, keys)),
        Err(spot) => Err(spot),
    }
}

/// A statement by its query and its order.
fn ordered(
    alloc: Global,
    selected: Result<Selected, Spot>,
    order: &[OrderTree],
) -> Result<Result<SqlQuery, Spot>, Memory>
    ensures { IfOk result (λ query. query ≡ spec.statement_found selected order.now) }
{
    match selected {
        Ok(selected) => {
            let Selected { tree, columns } = selected;
            let keys = all_of(alloc, keys(alloc, columns.as_slice(), order)?)?;
            Ok(with_keys(tree, spotted(keys)))
        }
        Err(spot) => Ok(Err(spot)),
    }
}

/// The query of a statement, or its first fault.
#[tactic(auto, using(crate::proofs::StatementLaws::statement_is))]
fn statement(
    alloc: Global,
    tables: &TableSet,
    tree: &NamedStatement,
) -> Result<Result<SqlQuery, Spot>, Memory>
    ensures { IfOk result (λ query. query ≡ statement_reading tables.now tree.now) }
{
    let query = query(alloc, tables, &[], &tree.query)?;
    ordered(alloc, query.selected, tree.order.as_slice())
}

/// The query of each statement of a script, with its names resolved over these tables, or the first
/// fault of the first statement that has one.
///
/// The language is this project's own profile of SQL-92 (ISO/IEC 9075:1992).
#[tactic(auto, using(crate::proofs::StatementLaws::scripts))]
pub fn resolve(
    alloc: Global,
    statements: &[NamedStatement],
    tables: &TableSet,
) -> Result<List<SqlQuery>, ResolveFault>
    ensures queries { IfOk result (λ queries.
        script_reading tables.now statements.now ≡ Ok queries) }
    ensures fault { IfErr result (spec.SaysFault tables.now statements.now) }
{
    let mut queries = List::new(alloc);
    for tree in statements {
        match statement(alloc, tables, tree)? {
            Ok(query) => queries.push(query)?,
            Err(spot) => return Err(ResolveFault::Bad(spot)),
        }
    }
    Ok(queries)
}
