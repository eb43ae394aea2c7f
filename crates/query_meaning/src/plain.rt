ghost use Rattle.std.specs.Prelude.{◌≡◌, ◌<◌, IfOk};
ghost use Rattle.query_meaning.specs.Answers.{answer_of, indexes_of};
ghost use Rattle.query_meaning.specs.BestRows.{HasBestRows};
ghost use Rattle.query_meaning.specs.BlockFits.{FitsTables, HasPlaces};

use crate::asking::Asked;
use crate::block::{Block, FromTable};
use prefsql_tables::{Answer, TableSet};
use prefsql_values::{Memory, Steps};
use std::alloc::Global;
use std::marker::Brand;
use std::sync::ledger::{Blank, Ledger};

/// The answer of a block by its definition: it goes through the combinations of rows one by one.
/// The only error is want of memory.
pub fn plain_answer(alloc: Global, block: &Block, tables: &TableSet) -> Result<Answer, Memory>
    requires places { HasPlaces block.now }
    requires fits { FitsTables tables.now block.now }
    ensures { IfOk result (λ answer. answer ≡ answer_of tables.now block.now) }
{
    counted_answer::<Brand>(alloc, block, tables, Blank::new(1))
}

/// The same, where the steps of the preference are counted.
fn counted_answer<L: Ledger>(
    alloc: Global,
    block: &Block,
    tables: &TableSet,
    blank: Blank,
) -> Result<Answer, Memory>
    requires places { HasPlaces block.now }
    requires fits { FitsTables tables.now block.now }
    requires name { blank.name ≡ L.name }
    requires parts { blank.parts ≡ L.parts }
    requires backed { 0 < L.parts }
    ensures { IfOk result (λ answer. answer ≡ answer_of tables.now block.now) }
{
    let mut steps = Steps::<L>::new(blank);
    let from = indexes_of(alloc, block.from.as_slice())?;
    let asked = Asked {
        block,
        tables,
        from: from.as_slice(),
    };
    let candidates = asked.candidates(alloc)?;
    let best = asked.best_rows(alloc, candidates, &mut steps)?;
    let kept = asked.kept_rows(alloc, best)?;
    asked.answer(alloc, kept.as_slice())
}

/// The position in the set of each FROM table.
pub fn indexes_of(alloc: Global, from: &[FromTable]) -> Result<Vec<u32>, Memory>
    ensures { IfOk result (λ indexes. indexes.items ≡ indexes_of from.now) }
{
    let indexes = from.iter().map(|table| table.index).collect(alloc)?;
    Ok(indexes)
}

/// The law that the best rows of a block are the candidates that no candidate of their group is
/// better than.
pub fn has_best_rows()
    ensures { HasBestRows }
{}
