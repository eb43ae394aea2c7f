//! Names in scope.

ghost use Rattle.std.specs.Prelude.{◌≡◌, ◌∷◌, [], map, slice_index_or, IfOk, MatchOption};
ghost use Rattle.sql_text.specs.Levels.{names_of};
ghost use Rattle.sql_text.specs.Text as spec;

use prefsql_values::Memory;
use sql_tree::{SqlFrom, SqlPlace, SqlSource};
use std::alloc::Global;

/// The FROM items of a query that is being written.
#[derive(Clone, Copy)]
pub(crate) struct Level<'q> {
    pub(crate) from: &'q [SqlFrom],
}

/// The levels within a query that has these FROM items and stands in these levels, the innermost
/// first.
pub(crate) fn within<'q>(
    alloc: Global,
    from: &'q [SqlFrom],
    levels: &[Level<'q>],
) -> Result<Vec<Level<'q>>, Memory>
    ensures { IfOk result (λ inner. names_of inner.items
        ≡ map (λ item. (spec.from_pieces item).names) from.now ∷ names_of levels.now) }
{
    let mut inner = Vec::new(alloc);
    inner.push(Level { from })?;
    for level in levels {
        inner.push(*level)?;
    }
    Ok(inner)
}

/// The FROM item of a place, if it is there.
fn item_at<'q>(levels: &[Level<'q>], place: SqlPlace) -> Option<&'q SqlFrom>
    ensures { MatchOption result
        (spec.item_at (names_of levels.now) place ≡ spec.no_item)
        (λ item. spec.item_at (names_of levels.now) place ≡ (spec.from_pieces item.now).names) }
{
    let level = levels.get(place.up as usize)?;
    level.from.get(place.item as usize)
}

/// The name of a column of the item, which is empty where there is none.
fn column_name<'q>(item: &'q SqlFrom, column: u32) -> &'q str
    ensures { result.now
        ≡ slice_index_or (spec.from_pieces item.now).names.columns column [] }
{
    match &item.source {
        SqlSource::Table(table) => match table.schema.columns.as_slice().get(column as usize) {
            Some(column) => column.name.as_str(),
            None => "",
        },
        SqlSource::Derived(query) => match query.get().items.as_slice().get(column as usize) {
            Some(item) => item.name.as_str(),
            None => "",
        },
    }
}

/// The correlation name of a place, which is empty where the place is outside.
#[tactic(auto, using(crate::proofs::NamesInScope::item_name_is))]
pub(crate) fn name_at<'q>(levels: &[Level<'q>], place: SqlPlace) -> &'q str
    ensures { result.now ≡ (spec.item_at (names_of levels.now) place).name }
{
    match item_at(levels, place) {
        Some(item) => item.name.as_str(),
        None => "",
    }
}

/// The name of the column of a place, which is empty where the place is outside.
pub(crate) fn column_at<'q>(levels: &[Level<'q>], place: SqlPlace) -> &'q str
    ensures { result.now
        ≡ slice_index_or (spec.item_at (names_of levels.now) place).columns place.column [] }
{
    match item_at(levels, place) {
        Some(item) => column_name(item, place.column),
        None => "",
    }
}
