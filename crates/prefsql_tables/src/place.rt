use prefsql_values::List;

/// A column of the FROM table at a position. Both count from 0.
#[derive(Clone, Copy, Debug, PartialEq, Eq)]
pub struct ColumnPlace {
    pub table: u32,
    pub column: u32,
}

/// A combination: one row number for each of some FROM tables that stand in a row. Row numbers
/// count from 0.
#[derive(Debug, Drop)]
pub struct Combo {
    pub rows: List<u32>,
}

/// A key of an order: an output column, from 0, and whether its order is reversed.
#[derive(Clone, Copy, Debug, PartialEq, Eq)]
pub struct SortKey {
    pub column: u32,
    pub descending: bool,
}
