//! FROM items.

ghost use Rattle.std.specs.Prelude.{◌≡◌, IfOk, None, Some, [], if◌then◌else◌, map};
ghost use Rattle.prefsql_tables.specs.Names.{table_place};
ghost use Rattle.prefsql_tables.specs.Table.{HasTable};
ghost use Rattle.sql_resolver.specs.Owed.{fault};
ghost use Rattle.sql_resolver.specs.declared.found.FoundFrom.{FoundFrom};
ghost use Rattle.sql_tree.specs.Shown.{domain_shape};
ghost use Rattle.sql_resolver.specs.Found as found;
ghost use Rattle.sql_resolver.specs.Reading.{correlation, table_column, table_reading};

use crate::fault::{Fault, all_of, also, earlier_if};
use crate::found::{FoundFrom, FoundQuery, Selected};
use crate::leaves::SHORT_BOUND;
use crate::scope::{ScopeColumn, ScopeItem};
use prefsql_lexer::Spot;
use prefsql_tables::{Column, TableSet};
use prefsql_values::{Boxed, Domain, List, Memory, Text};
use query_tree::FromTree;
use sql_tree::{SqlFrom, SqlSource, SqlTable};
use std::alloc::Global;
use std::collections::HashSet;

const UNKNOWN_TABLE: u16 = 301;

const REPEATED_NAME: u16 = 302;

/// The correlation name of a table: the one that is written, else the table's.
fn correlation(alloc: Global, tree: &FromTree) -> Result<Text, Memory>
    ensures { IfOk result (λ name. name ≡ correlation tree.now) }
{
    match &tree.name {
        Some(name) => name.copy(alloc),
        None => tree.table.copy(alloc),
    }
}

/// The bound of a column of a table.
fn bound_of(domain: Domain) -> u128
    ensures { result ≡ (domain_shape domain).bound }
{
    match domain {
        Domain::Integer => SHORT_BOUND,
        Domain::Chars => 0,
    }
}

fn table_column(alloc: Global, column: &Column) -> Result<ScopeColumn, Memory>
    ensures { IfOk result (λ shown. shown ≡ table_column column.now) }
{
    Ok(ScopeColumn {
        name: column.name.copy(alloc)?,
        domain: Some(column.domain),
        bound: Some(bound_of(column.domain)),
    })
}

/// The columns of a table as those round it see them.
fn table_columns(alloc: Global, columns: &[Column]) -> Result<List<ScopeColumn>, Memory>
    ensures { IfOk result (λ shown. shown ≡ map table_column columns.now) }
{
    let mut shown = List::new(alloc);
    for column in columns {
        shown.push(table_column(alloc, column)?)?;
    }
    Ok(shown)
}

/// The table at this position of the set, and its columns.
fn known_table(
    alloc: Global,
    tables: &TableSet,
    tree: &FromTree,
    index: u32,
) -> Result<(SqlFrom, ScopeItem), Memory>
    requires { HasTable tables.now index }
    ensures { IfOk result (λ item. item ≡ (
      (table_reading tables.now tree.now (Some index)).tree,
      (table_reading tables.now tree.now (Some index)).item,
    )) }
{
    let schema = tables.schema(index);
    let item = ScopeItem {
        name: correlation(alloc, tree)?,
        columns: table_columns(alloc, schema.columns.as_slice())?,
    };
    let table = SqlTable {
        index,
        name: tree.table.copy(alloc)?,
        schema: schema.copy(alloc)?,
    };
    let from = SqlFrom {
        name: correlation(alloc, tree)?,
        source: SqlSource::Table(table),
    };
    Ok((from, item))
}

/// A table with its name.
pub(crate) fn table(alloc: Global, tables: &TableSet, tree: &FromTree) -> Result<FoundFrom, Memory>
    ensures { IfOk result (λ from. from ≡ found.found_from
        (table_reading tables.now tree.now (table_place tables.now tree.now.table))) }
{
    let name = correlation(alloc, tree)?;
    let name_at = tree.name_at;
    let item = match tables.find(tree.table.as_str()) {
        Some(index) => Ok(known_table(alloc, tables, tree, index)?),
        None => Err(Fault {
            at: tree.at,
            spot: Spot {
                code: UNKNOWN_TABLE,
                at: tree.at,
            },
        }),
    };
    Ok(FoundFrom {
        name,
        name_at,
        item,
    })
}

/// A query in parentheses as a FROM item, or the fault that stands at its SELECT.
fn derived_item(
    alloc: Global,
    at: u32,
    selected: Result<Selected, Spot>,
    name: &Text,
) -> Result<Result<(SqlFrom, ScopeItem), Fault>, Memory>
    ensures { IfOk result (λ item. item ≡ found.derived_item at selected name.now) }
{
    match selected {
        Ok(selected) => {
            let Selected { tree, columns } = selected;
            let source = SqlSource::Derived(Boxed::new(alloc, tree)?);
            let item = ScopeItem {
                name: name.copy(alloc)?,
                columns,
            };
            let from = SqlFrom {
                name: name.copy(alloc)?,
                source,
            };
            Ok(Ok((from, item)))
        }
        Err(spot) => Ok(Err(Fault { at, spot })),
    }
}

/// A query in parentheses with its name.
pub(crate) fn derived(
    alloc: Global,
    query: FoundQuery,
    name: &Text,
    name_at: u32,
) -> Result<FoundFrom, Memory>
    ensures { IfOk result (λ from. from ≡ found.derived query name.now name_at) }
{
    let FoundQuery { at, selected } = query;
    let item = derived_item(alloc, at, selected, name)?;
    Ok(FoundFrom {
        name: name.copy(alloc)?,
        name_at,
        item,
    })
}

/// The first fault of an item that has the name of an earlier one.
#[tactic(auto, using(crate::proofs::OutcomeLaws::earlier_ifs))]
fn first_repeated(alloc: Global, froms: &[FoundFrom]) -> Result<Option<Fault>, Memory>
    ensures { IfOk result (λ fault. fault ≡ found.first_repeated [] froms.now) }
{
    let mut fault = None;
    let mut names = HashSet::new(alloc);
    for from in froms {
        let is_new = names.insert(from.name.as_str())?;
        fault = earlier_if(fault, repeated(!is_new, from));
    }
    Ok(fault)
}

/// The fault of an item whose name is repeated.
fn repeated(is_repeated: bool, from: &FoundFrom) -> Option<Fault>
    ensures { result ≡ if is_repeated then Some (fault 302 from.now.name_at) else None }
{
    if is_repeated {
        Some(Fault {
            at: from.name_at,
            spot: Spot {
                code: REPEATED_NAME,
                at: from.name_at,
            },
        })
    } else {
        None
    }
}

/// The items without their names.
fn items_of(
    alloc: Global,
    froms: Vec<FoundFrom>,
) -> Result<Vec<Result<(SqlFrom, ScopeItem), Fault>>, Memory>
    ensures { IfOk result (λ items. items.items
        ≡ map (λ (from : FoundFrom). from.item) froms.items) }
{
    let mut items = Vec::new(alloc);
    for from in froms {
        items.push(from.item)?;
    }
    Ok(items)
}

/// The items of FROM, or its first fault.
pub(crate) fn from_items(
    alloc: Global,
    froms: Vec<FoundFrom>,
) -> Result<Result<List<(SqlFrom, ScopeItem)>, Fault>, Memory>
    ensures { IfOk result (λ items. items ≡ found.from_items froms.items) }
{
    let fault = first_repeated(alloc, &froms)?;
    let items = all_of(alloc, items_of(alloc, froms)?)?;
    Ok(also(items, fault))
}
