//! ORDER BY.

ghost use Rattle.std.specs.Prelude.{◌≡◌, Err, IfOk, List, map, ℕ};
ghost use Rattle.std.specs.Str.{bytes_eq};
ghost use Rattle.sql_resolver.specs.Meant.{meaning};
ghost use Rattle.sql_resolver.specs.NamesMeant.{positions_from};
ghost use Rattle.sql_resolver.specs.Ordered as spec;
ghost use Rattle.sql_resolver.specs.Owed.{fault};
ghost use Rattle.sql_resolver.specs.Statements.{key_reading, named_key, numbered_key};
ghost use Rattle.sql_resolver.specs.Scope.{ScopeColumn};

use crate::fault::Fault;
use crate::meaning::{Meaning, one_more};
use crate::scope::{ScopeColumn, narrow};
use prefsql_lexer::Spot;
use prefsql_tables::SortKey;
use prefsql_values::Memory;
use query_tree::{OrderName, OrderTree};
use std::alloc::Global;
use std::collections::HashMap;

const UNKNOWN_OUTPUT: u16 = 314;

const AMBIGUOUS_OUTPUT: u16 = 315;

const NO_SUCH_POSITION: u16 = 316;

/// What each name means among those of the columns.
fn columns_by_name<'c>(
    alloc: Global,
    columns: &'c [ScopeColumn],
) -> Result<HashMap<&'c str, Meaning<u32>>, Memory>
    ensures { IfOk result (spec.ShowsColumns columns.now) }
{
    let mut named = HashMap::new(alloc);
    for (at, column) in columns.iter().enumerate() {
        let name = column.name.as_str();
        let known = named.get(name).copied();
        named.insert(name, one_more(known, narrow(at)?))?;
    }
    Ok(named)
}

/// A key that has a fault.
fn faulty(code: u16, at: u32) -> Result<SortKey, Fault>
    ensures { result ≡ Err (fault code at) }
{
    Err(Fault {
        at,
        spot: Spot { code, at },
    })
}

/// A key by what its name means.
fn named_key(tree: &OrderTree, column: Option<Meaning<u32>>) -> Result<SortKey, Fault>
    ensures { (positions : List ℕ) → column ≡ meaning positions
        → result ≡ spec.found_key (named_key tree.now positions) }
{
    match column {
        None => faulty(UNKNOWN_OUTPUT, tree.at),
        Some(Meaning::One(column)) => Ok(SortKey {
            column,
            descending: tree.descending,
        }),
        Some(Meaning::Several) => faulty(AMBIGUOUS_OUTPUT, tree.at),
    }
}

/// A key by its position from 1, where there are so many columns.
fn numbered_key(tree: &OrderTree, n: i64, count: usize) -> Result<Result<SortKey, Fault>, Memory>
    ensures { IfOk result (λ key. key ≡ spec.found_key (numbered_key tree.now n count)) }
{
    if n < 1 || i128::from(n) > count as i128 {
        return Ok(faulty(NO_SUCH_POSITION, tree.at));
    }
    let column = narrow((n - 1) as usize)?;
    Ok(Ok(SortKey {
        column,
        descending: tree.descending,
    }))
}

/// Output columns, and what their names mean.
#[derive(Drop)]
pub struct Outputs<'c> {
    pub columns: &'c [ScopeColumn],
    pub named: HashMap<&'c str, Meaning<u32>>,
    ghost shown: { spec.ShowsColumns columns.now named },
}

impl Outputs<'_> {
    /// A key by its name.
    fn key_by_name(&self, tree: &OrderTree, name: &str) -> Result<SortKey, Fault>
        ensures { result ≡ spec.found_key (named_key tree.now (positions_from 0
            (λ (column : ScopeColumn). bytes_eq name.now column.name) self.now.columns.now)) }
    {
        named_key(tree, self.named.get(name).copied())
    }

    /// A key of the order.
    fn key(&self, tree: &OrderTree) -> Result<Result<SortKey, Fault>, Memory>
        ensures { IfOk result (λ key. key
            ≡ spec.found_key (key_reading self.now.columns.now tree.now)) }
    {
        match &tree.key {
            OrderName::Name(name) => Ok(self.key_by_name(tree, name.as_str())),
            OrderName::Position(n) => numbered_key(tree, *n, self.columns.len()),
        }
    }
}

/// The keys of the order over these output columns.
pub(crate) fn keys(
    alloc: Global,
    columns: &[ScopeColumn],
    order: &[OrderTree],
) -> Result<Vec<Result<SortKey, Fault>>, Memory>
    ensures { IfOk result (λ keys. keys.items
        ≡ map (λ tree. spec.found_key (key_reading columns.now tree)) order.now) }
{
    let named = columns_by_name(alloc, columns)?;
    let outputs = Outputs { columns, named };
    let mut keys = Vec::new(alloc);
    for tree in order {
        keys.push(outputs.key(tree)?)?;
    }
    Ok(keys)
}
