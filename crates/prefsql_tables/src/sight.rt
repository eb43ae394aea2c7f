ghost use Rattle.std.specs.Prelude.{◌≡◌};
ghost use Rattle.prefsql_values.specs.Value.{value_of};
ghost use Rattle.prefsql_tables.specs.Sight.{sight, IsInSight};

use crate::place::{ColumnPlace, Combo};
use crate::set::TableSet;
use prefsql_values::Cell;

/// The cell that a combination of rows has in a column. `from` has the position in the set of each
/// FROM table, and the combination is of the FROM tables from position `first` on.
pub fn cell_in_sight<'a>(
    place: ColumnPlace,
    tables: &'a TableSet,
    from: &[u32],
    first: u32,
    combo: &Combo,
) -> Cell<'a>
    requires { IsInSight tables.now from.now first combo.now.rows place }
    ensures { value_of result ≡ sight tables.now from.now first combo.now.rows place }
{
    let table = from[place.table as usize];
    let row = combo.rows.as_slice()[(place.table - first) as usize];
    tables.cell(table, row, place.column)
}
