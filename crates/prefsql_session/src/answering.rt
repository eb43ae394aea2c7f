//! The answers of statements, and the lines for the tests that they took.
ghost use Rattle.std.specs.Prelude.{◌≡◌, ◌+◌, ◌*◌, ◌<◌, ◌≤◌, All, IfOk, IsErrOf};
ghost use Rattle.std.specs.String.{string_bytes};
ghost use Rattle.query_meaning.specs.Answers.{answer_of};
ghost use Rattle.table_csv.specs.AnswerText.{text_of_answer};
ghost use Rattle.prefsql_session.specs.Counts.{IsTestCount, last_count, told_line};
ghost use Rattle.prefsql_session.specs.Parts.{WritesAnswer, WritesAnswers};
ghost use Rattle.prefsql_session.specs.Texts.{IsAnswerable};

use crate::halt::Halt;
use native_plan::{PlanRun, run_plan};
use plan_optimiser::optimise;
use prefsql_io::{Sink, write_all};
use prefsql_tables::TableSet;
use prefsql_values::{Memory, Steps};
use query_meaning::Block;
use std::alloc::{AllocError, Global};
use std::sync::ledger::Ledger;
use table_csv::answer_text;

/// The answer of a statement by its plan, and how many tests it took.
pub(crate) fn answered<L: Ledger>(
    alloc: Global,
    tables: &TableSet,
    block: &Block,
    steps: &mut Steps<L>,
) -> Result<PlanRun, Memory>
    requires { IsAnswerable tables.now block.now }
    ensures answer { IfOk result (λ found. found.answer ≡ answer_of tables.now block.now) }
    ensures tests { IfOk result (λ found. IsTestCount tables.now block.now found.tests) }
    ensures least_steps { IfOk result (λ found. steps.old + found.tests ≤ steps.new) }
    ensures most_steps { IfOk result
        (λ found. found.tests < last_count → steps.new ≤ steps.old + 8 * found.tests) }
{
    let plan = optimise(alloc, block)?;
    run_plan(alloc, &plan, block, tables, steps)
}

// The line for a count, or nothing where counts are not told.
fn told_line(alloc: Global, tells: bool, tests: u64) -> Result<String, AllocError>
    ensures { IfOk result (λ line. string_bytes line ≡ told_line tells tests) }
{
    if tells {
        format!(in alloc; "tests {tests}\n")
    } else {
        Ok(String::new(alloc))
    }
}

// Computes the answer of a statement and the line for its count, and then writes both.
fn write_answer<O: Sink, E: Sink, L: Ledger>(
    alloc: Global,
    tells: bool,
    tables: &TableSet,
    block: &Block,
    out: &mut O,
    err: &mut E,
    steps: &mut Steps<L>,
) -> Result<u64, Halt>
    requires { IsAnswerable tables.now block.now }
    ensures wrote { WritesAnswer tells tables.now block.now (O.faults out.old) (O.faults out.new)
        (O.written out.old) (O.written out.new)
        (E.faults err.old) (E.faults err.new) (E.written err.old)
        (E.written err.new) steps.old steps.new result }
    ensures kept { (IsErrOf result Halt.WriteFault → ⊥)
        → (O.faults out.new ≡ O.faults out.old) × (E.faults err.new ≡ E.faults err.old) }
{
    let found = answered(alloc, tables, block, steps)?;
    let text = answer_text(alloc, &found.answer)?;
    let Ok(line) = told_line(alloc, tells, found.tests) else {
        return Err(Halt::Memory);
    };
    write_all(out, &text)?;
    write_all(err, line.as_bytes())?;
    Ok(found.tests)
}

/// Answers the statements in order. Each answer is written before the next is computed, and the
/// line for its count behind it, where counts are told.
pub(crate) fn write_answers<O: Sink, E: Sink, L: Ledger>(
    alloc: Global,
    tells: bool,
    tables: &TableSet,
    blocks: &[Block],
    out: &mut O,
    err: &mut E,
    steps: &mut Steps<L>,
) -> Result<(), Halt>
    requires { All (IsAnswerable tables.now) blocks.now }
    ensures wrote { WritesAnswers tells tables.now blocks.now (O.faults out.old) (O.faults out.new)
        (O.written out.old) (O.written out.new)
        (E.faults err.old) (E.faults err.new) (E.written err.old)
        (E.written err.new) steps.old steps.new result }
    ensures kept { (IsErrOf result Halt.WriteFault → ⊥)
        → (O.faults out.new ≡ O.faults out.old) × (E.faults err.new ≡ E.faults err.old) }
{
    for block in blocks {
        write_answer(alloc, tells, tables, block, out, err, steps)?;
    }
    Ok(())
}
