//! Marks of the rows that are kept.
ghost use Rattle.std.specs.Prelude.{◌≡◌, ◌<◌, All, IfOk, length, map, true};
ghost use Rattle.std.specs.List.{range_with_len};
ghost use Rattle.window_eval.specs.Marks.{marked};
ghost use Rattle.plan_groups.specs.Marks.{is_one_of};

use prefsql_tables::Combo;
use prefsql_values::{List, Memory};
use std::alloc::Global;

/// So many marks, true at these places.
pub(crate) fn marks_at(alloc: Global, count: usize, places: &[usize]) -> Result<Vec<bool>, Memory>
    requires { All (λ place. place < count) places.now }
    ensures { IfOk result
        (λ marks. marks.items ≡ map (is_one_of places.now) (range_with_len 0 count)) }
{
    let mut marks = vec![in alloc; false; count]?;
    for place in places {
        marks[*place] = true;
    }
    Ok(marks)
}

/// The rows whose mark is true, in their order.
pub(crate) fn keep_marked(
    alloc: Global,
    combos: Vec<Combo>,
    marks: &[bool],
) -> Result<List<Combo>, Memory>
    requires { length marks.now ≡ length combos.items }
    ensures { IfOk result (λ kept. kept ≡ marked combos.items marks.now) }
{
    let mut kept = List::new(alloc);
    for (combo, mark) in combos.into_iter().zip(marks) {
        if *mark {
            kept.push(combo)?;
        }
    }
    Ok(kept)
}
