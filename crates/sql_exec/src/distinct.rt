//! Rows without repetition.
ghost use Rattle.std.specs.Prelude.{◌≡◌, IfOk};
ghost use Rattle.prefsql_tables.specs.Distinct.{each_once};

use crate::row_key::RowKey;
use indexmap::IndexSet;
use prefsql_tables::AnswerRow;
use prefsql_values::{List, Memory};
use std::alloc::Global;

/// Each of the rows once, at its first place. Two NULLs count as equal.
#[tactic(auto, using(crate::proofs::Once::once_taken))]
pub(crate) fn once(alloc: Global, rows: List<AnswerRow>) -> Result<List<AnswerRow>, Memory>
    ensures { IfOk result (λ kept. kept ≡ each_once rows) }
{
    let keys = rows.into_vec().into_iter().map(|row| RowKey { row });
    let kept: IndexSet<RowKey> = keys.collect(alloc)?;
    let rows = kept.into_iter().map(|key| key.row).collect(alloc)?;
    Ok(List::of(rows))
}
