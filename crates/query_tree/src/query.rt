//! Statements.

use crate::condition::{CondTree, ScalarTree};
use crate::name::NameTree;
use crate::preference::PrefTree;
use prefsql_values::{List, Text};

/// What a statement puts out in one column, and the name after it, if one is written.
#[derive(Debug, Drop)]
pub struct ItemTree {
    pub value: ScalarTree,
    pub name: Option<Text>,
}

/// What a statement puts out: `*` or a list of items.
#[derive(Debug, Drop)]
pub enum SelectTree {
    All,
    Items(List<ItemTree>),
}

/// A table, and the name after it, if one is written.
#[derive(Debug, Drop)]
pub struct FromTree {
    pub table: Text,
    pub name: Option<Text>,
    /// The place of the table's name.
    pub at: u32,
    /// The place of the name after it, or `at` where none is written.
    pub name_at: u32,
}

/// What an order item speaks of: an output column's name, or its position from 1 on.
#[derive(Debug, Drop)]
pub enum OrderName {
    Name(Text),
    Position(i64),
}

/// An item of the order.
#[derive(Debug, Drop)]
pub struct OrderTree {
    pub key: OrderName,
    pub descending: bool,
    /// The place of the name or number.
    pub at: u32,
}

/// A statement. An empty list is that of a clause that is not written.
#[derive(Debug, Drop)]
pub struct QueryTree {
    pub distinct: bool,
    pub select: SelectTree,
    pub from: List<FromTree>,
    /// The condition of WHERE.
    pub filter: Option<CondTree>,
    /// The preference of PREFERRING.
    pub prefer: Option<PrefTree>,
    /// The columns of GROUPING.
    pub groups: List<NameTree>,
    /// The condition of BUT ONLY.
    pub only: Option<CondTree>,
    pub order: List<OrderTree>,
}
