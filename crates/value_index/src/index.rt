ghost use Rattle.std.specs.Prelude.{◌≡◌, ◌++◌, ◌∷◌, [], IfOk, OnOk, length, map, if◌then◌else◌};
ghost use Rattle.prefsql_values.specs.Value.{value_of};
ghost use Rattle.prefsql_values.specs.declared.value.Value.{Value};
ghost use Rattle.value_index.specs.Places.{IsIndexOf, are_equal, bucket_at, places_in};

use crate::key::ValueKey;
use indexmap::IndexMap;
use prefsql_values::{Cell, Memory, is_null};
use std::alloc::Global;

/// The places of a list of cells by their values. A NULL is at none of them, since it is equal to
/// nothing.
#[derive(Drop)]
pub struct ValueIndex<'t> {
    buckets: IndexMap<ValueKey<'t>, Vec<usize>>,
}

impl<'t> ValueIndex<'t> {
    /// The index of these cells.
    pub fn of(alloc: Global, cells: &[Cell<'t>]) -> Result<ValueIndex<'t>, Memory>
        ensures { IfOk result (IsIndexOf (map value_of cells.now)) }
    {
        let mut buckets = IndexMap::new(alloc);
        for (place, cell) in cells.iter().enumerate() {
            add(alloc, &mut buckets, *cell, place)?;
        }
        Ok(ValueIndex { buckets })
    }

    /// The places of the cells that are equal to this one, in their order.
    pub fn places(&self, cell: Cell<'t>) -> &[usize]
        ensures { result.now ≡ places_in self.now (value_of cell.entry) }
    {
        match self.buckets.get(&ValueKey { cell }) {
            Some(places) => places.as_slice(),
            None => &[],
        }
    }
}

/// Adds the place of a cell to those of its value, unless it is NULL.
fn add<'t>(
    alloc: Global,
    buckets: &mut IndexMap<ValueKey<'t>, Vec<usize>>,
    cell: Cell<'t>,
    place: usize,
) -> Result<(), Memory>
    ensures { OnOk result ((v : Value) → bucket_at buckets.new v ≡ bucket_at buckets.old v
        ++ (if are_equal (value_of cell.entry) v then place ∷ [] else [])) }
{
    if is_null(cell) {
        return Ok(());
    }
    let mut bucket = match buckets.swap_remove(&ValueKey { cell }) {
        Some(bucket) => bucket,
        None => Vec::new(alloc),
    };
    bucket.push(place)?;
    buckets.insert(ValueKey { cell }, bucket)?;
    Ok(())
}
