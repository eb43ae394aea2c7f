//! ORDER BY and its keys.

ghost use Rattle.std.specs.Prelude.{◌≡◌, ◌++◌, OnOk};
ghost use Rattle.std.specs.String.{string_bytes};
ghost use Rattle.sql_text.specs.Pieces.{bytes_of};
ghost use Rattle.sql_text.specs.Text as spec;

use crate::quoted::number;
use prefsql_tables::SortKey;
use prefsql_values::Memory;
use std::alloc::Global;

/// Writes a key of the order: its position from 1 and its direction.
fn key(alloc: Global, out: &mut String, key: SortKey) -> Result<(), Memory>
    ensures { OnOk result
        (string_bytes out.new ≡ string_bytes out.old ++ bytes_of (spec.key_pieces key)) }
{
    number(alloc, out, i64::from(key.column) + 1)?;
    out.push_str(if key.descending { " DESC" } else { " ASC" })?;
    Ok(())
}

/// Writes ORDER BY with its keys, after a space, where there are any.
pub(crate) fn order_by(alloc: Global, out: &mut String, keys: &[SortKey]) -> Result<(), Memory>
    ensures { OnOk result
        (string_bytes out.new ≡ string_bytes out.old ++ bytes_of (spec.order_pieces keys.now)) }
{
    let Some((first, more)) = keys.split_first() else {
        return Ok(());
    };
    out.push_str(" ORDER BY ")?;
    key(alloc, out, *first)?;
    for next in more {
        out.push_str(", ")?;
        key(alloc, out, *next)?;
    }
    Ok(())
}
