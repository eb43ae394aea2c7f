//! Queries by what is found of their clauses.

ghost use Rattle.std.specs.Prelude.{◌≡◌, IfOk, map};
ghost use Rattle.sql_tree.specs.declared.tree.SqlFrom.{SqlFrom};
ghost use Rattle.sql_resolver.specs.Found as found;
ghost use Rattle.sql_resolver.specs.Outcomes.{all_of};
ghost use Rattle.sql_resolver.specs.Scope.{ScopeItem};
ghost use Rattle.sql_resolver.specs.declared.found.FoundOutput.{FoundOutput};

use crate::fault::{Fault, all_of};
use crate::found::{FoundOutput, Selected};
use crate::scope::{ScopeColumn, ScopeItem};
use prefsql_lexer::Spot;
use prefsql_values::{List, Memory};
use sql_tree::{SqlCond, SqlFrom, SqlItem, SqlQuery};
use std::alloc::Global;

/// The part, or the spot of its fault.
pub(crate) fn spotted<T: Drop>(part: Result<T, Fault>) -> Result<T, Spot>
    ensures { result ≡ found.spotted part }
{
    match part {
        Ok(part) => Ok(part),
        Err(fault) => Err(fault.spot),
    }
}

/// Both clauses, or the fault of the first that has one.
fn in_turn<A: Drop, B: Drop>(
    first: Result<A, Spot>,
    second: Result<B, Spot>,
) -> Result<(A, B), Spot>
    ensures { result ≡ found.in_turn first second }
{
    match first {
        Ok(a) => match second {
            Ok(b) => Ok((a, b)),
            Err(spot) => Err(spot),
        },
        Err(spot) => Err(spot),
    }
}

/// The trees of FROM items, and the items as the query sees them.
pub(crate) fn split(
    alloc: Global,
    pairs: List<(SqlFrom, ScopeItem)>,
) -> Result<(List<SqlFrom>, List<ScopeItem>), Memory>
    ensures trees { IfOk result (λ both. both.0 ≡ map (λ (p : SqlFrom × ScopeItem). p.0) pairs) }
    ensures items { IfOk result (λ both. both.1 ≡ map (λ (p : SqlFrom × ScopeItem). p.1) pairs) }
{
    let mut trees = List::new(alloc);
    let mut items = List::new(alloc);
    for (tree, item) in pairs.into_vec() {
        trees.push(tree)?;
        items.push(item)?;
    }
    Ok((trees, items))
}

/// The items of output columns.
fn items_of(
    alloc: Global,
    outputs: Vec<FoundOutput>,
) -> Result<(Vec<Result<SqlItem, Fault>>, List<ScopeColumn>), Memory>
    ensures items { IfOk result (λ both. both.0.items
        ≡ map (λ (output : FoundOutput). output.item) outputs.items) }
    ensures columns { IfOk result (λ both. both.1
        ≡ map (λ (output : FoundOutput). output.column) outputs.items) }
{
    let mut items = Vec::new(alloc);
    let mut columns = List::new(alloc);
    for output in outputs {
        let FoundOutput { item, column } = output;
        items.push(item)?;
        columns.push(column)?;
    }
    Ok((items, columns))
}

/// A query by its clauses without faults.
fn selected_of(
    alloc: Global,
    distinct: bool,
    from: List<SqlFrom>,
    columns: List<ScopeColumn>,
    clauses: Result<(List<SqlItem>, Option<SqlCond>), Spot>,
) -> Result<Selected, Spot>
    ensures { result ≡ found.selected_of distinct from columns clauses }
{
    let (items, filter) = clauses?;
    let tree = SqlQuery {
        distinct,
        items,
        from,
        filter,
        order: List::new(alloc),
    };
    Ok(Selected { tree, columns })
}

/// A query by its FROM items, its output columns and its condition.
pub(crate) fn selected(
    alloc: Global,
    distinct: bool,
    from: List<SqlFrom>,
    outputs: Vec<FoundOutput>,
    filter: Result<Option<SqlCond>, Fault>,
) -> Result<Result<Selected, Spot>, Memory>
    ensures { IfOk result (λ query. query ≡ found.selected distinct from outputs.items filter) }
{
    let (items, columns) = items_of(alloc, outputs)?;
    let items = all_of(alloc, items)?;
    let clauses = in_turn(spotted(items), spotted(filter));
    Ok(selected_of(alloc, distinct, from, columns, clauses))
}
