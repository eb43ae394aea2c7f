//! Names in scope, and the columns that a name can mean.

ghost use Rattle.std.specs.Prelude.{◌≡◌, ◌∷◌, IfOk};
ghost use Rattle.sql_resolver.specs.Index.{key_first, key_second};
ghost use Rattle.sql_resolver.specs.Meant.{meaning};
ghost use Rattle.sql_resolver.specs.NamesMeant.{column_part, decides, places_in, places_of};
ghost use Rattle.sql_resolver.specs.Reading.{own_scope};
ghost use Rattle.sql_resolver.specs.Scope.{names_in, scope_names};

use crate::index::{NameKey, columns_by_name, names_called, seen_from};
use crate::meaning::Meaning;
use prefsql_values::{Domain, List, Memory, Text};
use query_tree::NameTree;
use sql_tree::SqlPlace;
use std::alloc::Global;
use std::collections::{HashMap, HashSet};
use std::marker::Model;
use std::rc::Rc;

/// A column of a FROM item: its name, what it holds, and a bound of its numbers.
#[derive(Debug, Drop)]
pub struct ScopeColumn {
    pub name: Text,
    pub domain: Option<Domain>,
    pub bound: Option<u128>,
}

impl Model for ScopeColumn {
    ghost use Rattle.sql_resolver.specs.Scope as scope;

    ghost Value = { scope.ScopeColumn };

    ghost view = { λ c. record { name = c.name; domain = c.domain; bound = c.bound } };
}

/// A FROM item: its correlation name and its columns.
#[derive(Debug, Drop)]
pub struct ScopeItem {
    pub name: Text,
    pub columns: List<ScopeColumn>,
}

impl Model for ScopeItem {
    ghost use Rattle.sql_resolver.specs.Scope as scope;

    ghost Value = { scope.ScopeItem };

    ghost view = { λ i. record { name = i.name; columns = i.columns } };
}

/// The FROM items of a query, and what finds them and their columns by name.
#[derive(Drop)]
pub struct Indexed {
    items: List<ScopeItem>,
    called: HashSet<String>,
    columns: HashMap<NameKey, Meaning<SqlPlace>>,
}

impl Model for Indexed {
    ghost use Rattle.sql_resolver.specs.Index.{IsIndexed};
    ghost use Rattle.sql_resolver.specs.Scope as scope;

    ghost Value = { scope.Scope };

    ghost view = { λ i. i.items };

    ghost invariant = { λ i. IsIndexed (scope.scope_names i.items) i.called i.columns };
}

impl Indexed {
    /// The items with their index.
    fn of(alloc: Global, items: List<ScopeItem>) -> Result<Indexed, Memory>
        ensures { IfOk result (λ indexed. indexed ≡ items) }
    {
        let shown = items.as_slice();
        let called = names_called(alloc, shown)?;
        let columns = columns_by_name(alloc, shown)?;
        Ok(Indexed {
            items,
            called,
            columns,
        })
    }

    fn items(&self) -> &[ScopeItem]
        ensures { result.now ≡ self.now }
    {
        self.items.as_slice()
    }

    /// Whether the name means a column of these items, or of none.
    fn decides(&self, name: &NameKey) -> bool
        ensures { result ≡ decides (key_first name.now) (key_second name.now)
            (scope_names self.now) }
    {
        match &name.second {
            None => self.columns.contains_key(name),
            Some(_) => self.called.contains(name.first.as_str()),
        }
    }

    /// What the name means among the columns of these items, which are seen from so far within.
    fn meaning(&self, name: &NameKey, up: u32) -> Option<Meaning<SqlPlace>>
        ensures { result ≡ meaning
            (places_in (key_first name.now) (key_second name.now) up 0 (scope_names self.now)) }
    {
        seen_from(self.columns.get(name).copied(), up)
    }
}

/// The FROM items of a query, which the queries in it share.
#[derive(Drop)]
pub struct Level {
    items: Rc<Indexed>,
}

impl Model for Level {
    ghost use Rattle.sql_resolver.specs.Scope as scope;

    ghost Value = { scope.Scope };

    ghost view = { λ level. level.items.value };
}

impl Level {
    /// The level of these items.
    fn of(alloc: Global, items: List<ScopeItem>) -> Result<Level, Memory>
        ensures { IfOk result (λ level. level ≡ items) }
    {
        match Rc::new(alloc, Indexed::of(alloc, items)?) {
            Ok(items) => Ok(Level { items }),
            Err(_) => Err(Memory),
        }
    }

    /// The same level, whose items are not copied.
    fn share(&self) -> Result<Level, Memory>
        ensures { IfOk result (λ level. level ≡ self.now) }
    {
        Ok(Level {
            items: self.items.clone()?,
        })
    }

    /// The items.
    pub(crate) fn items(&self) -> &[ScopeItem]
        ensures { result.now ≡ self.now }
    {
        self.items.as_ref().items()
    }

    /// Whether the name means a column of these items, or of none.
    fn decides(&self, name: &NameKey) -> bool
        ensures { result ≡ decides (key_first name.now) (key_second name.now)
            (scope_names self.now) }
    {
        self.items.as_ref().decides(name)
    }

    /// What the name means among the columns of these items, which are seen from so far within.
    fn meaning(&self, name: &NameKey, up: u32) -> Option<Meaning<SqlPlace>>
        ensures { result ≡ meaning
            (places_in (key_first name.now) (key_second name.now) up 0 (scope_names self.now)) }
    {
        self.items.as_ref().meaning(name, up)
    }
}

/// The levels within a query that has these FROM items and stands in these levels, the innermost
/// first.
pub(crate) fn within(
    alloc: Global,
    items: List<ScopeItem>,
    levels: &[Level],
) -> Result<Vec<Level>, Memory>
    ensures { IfOk result (λ inner. inner.items ≡ items ∷ levels.now) }
{
    let mut inner = Vec::new(alloc);
    inner.push(Level::of(alloc, items)?)?;
    for level in levels {
        inner.push(level.share()?)?;
    }
    Ok(inner)
}

/// The items of the innermost level.
pub(crate) fn own_items(levels: &[Level]) -> &[ScopeItem]
    ensures { result.now ≡ own_scope levels.now }
{
    match levels.first() {
        Some(level) => level.items(),
        None => &[],
    }
}

/// The number in a place, or want of room where it is too large for one.
pub(crate) fn narrow(n: usize) -> Result<u32, Memory>
    ensures { IfOk result (λ narrow. narrow ≡ n) }
{
    if n <= u32::MAX as usize {
        Ok(n as u32)
    } else {
        Err(Memory)
    }
}

/// The name of the column, without that of its item.
pub(crate) fn column_part(name: &NameTree) -> &str
    ensures { result.now ≡ column_part name.now.first name.now.second }
{
    match &name.second {
        None => name.first.as_str(),
        Some(column) => column.as_str(),
    }
}

/// What the name means in the innermost of the levels that decides it.
pub(crate) fn meaning_of(
    alloc: Global,
    name: &NameTree,
    levels: &[Level],
) -> Result<Option<Meaning<SqlPlace>>, Memory>
    ensures { IfOk result (λ found. found
        ≡ meaning (places_of name.now.first name.now.second 0 (names_in levels.now))) }
{
    let key = NameKey::of(alloc, name)?;
    for (up, level) in levels.iter().enumerate() {
        if level.decides(&key) {
            return Ok(level.meaning(&key, narrow(up)?));
        }
    }
    Ok(None)
}
