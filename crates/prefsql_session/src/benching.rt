//! The summary of the bench.
ghost use Rattle.std.specs.Prelude.{◌≡◌, ◌+◌, ◌*◌, ◌<◌, ◌≤◌, ℕ, List, IfOk, length};
ghost use Rattle.query_meaning.specs.Answers.{answer_of};
ghost use Rattle.prefsql_bench.specs.BenchTable.{bench_set};
ghost use Rattle.prefsql_bench.specs.Statements as statements;
ghost use Rattle.prefsql_bench.specs.Summary.{bench_summary};
ghost use Rattle.prefsql_session.specs.Counts.{IsTestCount, Takes, last_count};
ghost use Rattle.prefsql_session.specs.Texts.{IsAnswerable, IsBenchCount};

use crate::answering::answered;
use prefsql_bench::{bench_blocks, bench_tables, bench_text};
use prefsql_tables::TableSet;
use prefsql_values::{Memory, Steps};
use query_meaning::Block;
use std::alloc::Global;
use std::sync::ledger::Ledger;

// How many rows the answer of a query has, and how many tests it took.
fn row_count<L: Ledger>(
    alloc: Global,
    tables: &TableSet,
    block: &Block,
    steps: &mut Steps<L>,
) -> Result<(usize, u64), Memory>
    requires { IsAnswerable tables.now block.now }
    ensures rows { IfOk result (λ found. found.0 ≡ length (answer_of tables.now block.now).rows) }
    ensures tests { IfOk result (λ found. IsTestCount tables.now block.now found.1) }
    ensures least_steps { IfOk result (λ found. steps.old + found.1 ≤ steps.new) }
    ensures most_steps { IfOk result
        (λ found. found.1 < last_count → steps.new ≤ steps.old + 8 * found.1) }
{
    let found = answered(alloc, tables, block, steps)?;
    Ok((found.answer.rows.as_slice().len(), found.tests))
}

/// What the bench over a table of so many rows writes: its three queries are answered by their
/// plans.
pub(crate) fn summary<L: Ledger>(
    alloc: Global,
    count: u32,
    steps: &mut Steps<L>,
) -> Result<Vec<u8>, Memory>
    requires { IsBenchCount count }
    ensures text { IfOk result (λ text. text.items ≡ bench_summary count) }
    ensures counted { IfOk result
        (λ text. (tests : List ℕ)
        × Takes (bench_set count) statements.bench_blocks tests steps.old steps.new) }
{
    let tables = bench_tables(alloc, count)?;
    let blocks = bench_blocks(alloc)?;
    let mut rows = Vec::new(alloc);
    for block in blocks.as_slice() {
        let (found, _) = row_count(alloc, &tables, block, steps)?;
        rows.push(found)?;
    }
    bench_text(alloc, count, &rows)
}
