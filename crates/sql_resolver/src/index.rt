//! FROM items and their columns, found by name.

ghost use Rattle.std.specs.Prelude.{◌≡◌, ◌++◌, ◌∷◌, [], if◌then◌else◌, IfOk, List, None, OnOk, Option, Some, length, ℕ};
ghost use Rattle.std.specs.HashMap.{get};
ghost use Rattle.std.specs.Option.{option_map};
ghost use Rattle.sql_text.specs.Text.{ItemNames};
ghost use Rattle.sql_tree.specs.declared.tree.SqlPlace.{SqlPlace};
ghost use Rattle.sql_resolver.specs.Index.{AreCalled, IsIndexOf, IsKeyOf, Tells, can_mean, item_names, same_key, seen_from};
ghost use Rattle.sql_resolver.specs.Meant.{another, one_more};
ghost use Rattle.sql_resolver.specs.Scope.{scope_names};
ghost use Rattle.sql_resolver.specs.declared.index.NameKey.{NameKey};

use crate::meaning::{Meaning, one_more};
use crate::scope::{ScopeItem, narrow};
use prefsql_values::Memory;
use query_tree::NameTree;
use sql_tree::SqlPlace;
use std::alloc::Global;
use std::collections::{HashMap, HashSet};

/// A column's name `first`, or `first.second` after the name of its item.
#[derive(PartialEq, Eq, Hash, Drop)]
pub struct NameKey {
    pub first: String,
    pub second: Option<String>,
}

impl NameKey {
    /// The name of a column by itself.
    fn bare(alloc: Global, column: &str) -> Result<NameKey, Memory>
        ensures { IfOk result (IsKeyOf column.now None) }
    {
        Ok(NameKey {
            first: String::from_str(alloc, column)?,
            second: None,
        })
    }

    /// The name of a column after that of its item.
    fn full(alloc: Global, item: &str, column: &str) -> Result<NameKey, Memory>
        ensures { IfOk result (IsKeyOf item.now (Some column.now)) }
    {
        Ok(NameKey {
            first: String::from_str(alloc, item)?,
            second: Some(String::from_str(alloc, column)?),
        })
    }

    /// The name as a key.
    pub(crate) fn of(alloc: Global, name: &NameTree) -> Result<NameKey, Memory>
        ensures { IfOk result (IsKeyOf name.now.first name.now.second) }
    {
        match &name.second {
            None => NameKey::bare(alloc, name.first.as_str()),
            Some(column) => NameKey::full(alloc, name.first.as_str(), column.as_str()),
        }
    }
}

/// Adds a column that the name can mean.
fn add(
    columns: &mut HashMap<NameKey, Meaning<SqlPlace>>,
    key: NameKey,
    place: SqlPlace,
) -> Result<(), Memory>
    ensures { OnOk result ((other : NameKey) → get same_key columns.new other
        ≡ if same_key key other then Some (one_more (get same_key columns.old key) place)
        else get same_key columns.old other) }
{
    let known = columns.get(&key).copied();
    columns.insert(key, one_more(known, place))?;
    Ok(())
}

/// Adds a column by both of its names.
fn add_column(
    alloc: Global,
    columns: &mut HashMap<NameKey, Meaning<SqlPlace>>,
    called: &str,
    name: &str,
    place: SqlPlace,
) -> Result<(), Memory>
    ensures { OnOk result ((places : List ℕ → Option (List ℕ) → List SqlPlace)
        → Tells places columns.old
        → Tells (λ first second. places first second
        ++ (if can_mean called.now name.now first second then place ∷ [] else []))
        columns.new) }
{
    let bare = NameKey::bare(alloc, name)?;
    add(columns, bare, place)?;
    let full = NameKey::full(alloc, called, name)?;
    add(columns, full, place)?;
    Ok(())
}

/// Adds the columns of the item that stands behind all those that the map has.
fn add_columns(
    alloc: Global,
    columns: &mut HashMap<NameKey, Meaning<SqlPlace>>,
    item_at: u32,
    item: &ScopeItem,
) -> Result<(), Memory>
    ensures { OnOk result ((before : List ItemNames) → length before ≡ item_at
        → IsIndexOf before columns.old
        → IsIndexOf (before ++ item_names item.now ∷ []) columns.new) }
{
    let called = item.name.as_str();
    for (at, column) in item.columns.as_slice().iter().enumerate() {
        let place = SqlPlace {
            up: 0,
            item: item_at,
            column: narrow(at)?,
        };
        add_column(alloc, columns, called, column.name.as_str(), place)?;
    }
    Ok(())
}

/// The columns of the items, by their names.
pub(crate) fn columns_by_name(
    alloc: Global,
    items: &[ScopeItem],
) -> Result<HashMap<NameKey, Meaning<SqlPlace>>, Memory>
    ensures { IfOk result (IsIndexOf (scope_names items.now)) }
{
    let mut columns = HashMap::new(alloc);
    for (at, item) in items.iter().enumerate() {
        add_columns(alloc, &mut columns, narrow(at)?, item)?;
    }
    Ok(columns)
}

/// The names by which the items are called.
pub(crate) fn names_called(alloc: Global, items: &[ScopeItem]) -> Result<HashSet<String>, Memory>
    ensures { IfOk result (AreCalled (scope_names items.now)) }
{
    let mut called = HashSet::new(alloc);
    for item in items {
        called.insert(String::from_str(alloc, item.name.as_str())?)?;
    }
    Ok(called)
}

/// What a name means that means this among the items themselves, seen from so far within.
pub(crate) fn seen_from(known: Option<Meaning<SqlPlace>>, up: u32) -> Option<Meaning<SqlPlace>>
    ensures { result ≡ option_map (another (seen_from up)) known }
{
    match known {
        None => None,
        Some(Meaning::One(place)) => Some(Meaning::One(SqlPlace {
            up,
            item: place.item,
            column: place.column,
        })),
        Some(Meaning::Several) => Some(Meaning::Several),
    }
}
