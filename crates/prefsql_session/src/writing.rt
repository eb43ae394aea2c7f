//! What a run writes at its good end.
ghost use Rattle.std.specs.Prelude.{◌≡◌, ℕ, List, [], ◌∷◌, All, IfOk, OnOk, IsErrOf, IsUtf8};
ghost use Rattle.std.specs.Io.KnownBytes.{Appends, Keeps};
ghost use Rattle.std.specs.List.{flat_map};
ghost use Rattle.prefsql_io.specs.Counts.{HasCause};
ghost use Rattle.prefsql_io.specs.Streams.{AppendsLess};
ghost use Rattle.plan_algebra.specs.PlanText.{plan_text};
ghost use Rattle.plan_stages.specs.Stages.{block_plan};
ghost use Rattle.query_meaning.specs.Valid.{IsValidBlock};
ghost use Rattle.rewritten_query.specs.Rewriting.{rewritten};
ghost use Rattle.sql_text.specs.Text as sql;
ghost use Rattle.prefsql_bench.specs.BenchTable.{bench_set};
ghost use Rattle.prefsql_bench.specs.Statements.{bench_blocks};
ghost use Rattle.prefsql_bench.specs.Summary.{bench_summary};
ghost use Rattle.prefsql_session.specs.Counts.{Takes};
ghost use Rattle.prefsql_session.specs.Parts.{WritesOrHalts, WritesWork};
ghost use Rattle.prefsql_session.specs.Run.{GetsFront};
ghost use Rattle.prefsql_session.specs.declared.work.Work.TheVariants.{Statements};
ghost use Rattle.prefsql_session.specs.Texts.{HasTexts, IsAnswerable, IsBenchCount, shown_text};
ghost use Rattle.prefsql_session.specs.Written.{AreUtf8};

use crate::answering::write_answers;
use crate::benching::summary;
use crate::executing::{executed, write_queries};
use crate::halt::Halt;
use crate::work::Work;
use crate::{Shown, Status, Wish};
use plan_algebra::explain_text;
use plan_optimiser::optimise;
use prefsql_io::{Sink, write_all};
use prefsql_tables::TableSet;
use prefsql_values::{Memory, Steps};
use query_meaning::Block;
use sql_rewriter::rewrite;
use sql_text::write_sql;
use std::alloc::Global;
use std::sync::ledger::Ledger;

// The plan of a statement.
fn explained(alloc: Global, block: &Block) -> Result<Vec<u8>, Memory>
    requires { IsValidBlock block.now }
    ensures { IfOk result (λ text. text.items ≡ plan_text block.now (block_plan block.now)) }
{
    let plan = optimise(alloc, block)?;
    explain_text(alloc, &plan, block)
}

// The SQL query of a statement.
fn written(alloc: Global, block: &Block) -> Result<Vec<u8>, Memory>
    requires { IsValidBlock block.now }
    ensures text { IfOk result (λ text. text.items ≡ sql.text_of (rewritten block.now)) }
    ensures utf8 { OnOk result (IsUtf8 (sql.text_of (rewritten block.now))) }
{
    let query = rewrite(alloc, block)?;
    write_sql(alloc, &query)
}

// What is shown of a statement.
fn shown_text(
    alloc: Global,
    shown: Shown,
    tables: &TableSet,
    block: &Block,
) -> Result<Vec<u8>, Memory>
    requires { IsAnswerable tables.now block.now }
    ensures text { IfOk result (λ text. text.items ≡ shown_text shown tables.now block.now) }
    ensures utf8 { OnOk result (AreUtf8 shown (block.now ∷ [])) }
{
    match shown {
        Shown::Plan => explained(alloc, block),
        Shown::Query => written(alloc, block),
        Shown::Executed => executed(alloc, tables, block),
    }
}

// Computes what is shown of a statement, and then writes it.
fn write_shown<O: Sink>(
    alloc: Global,
    shown: Shown,
    tables: &TableSet,
    block: &Block,
    out: &mut O,
) -> Result<(), Halt>
    requires { IsAnswerable tables.now block.now }
    ensures all { OnOk result
        (Appends (O.written out.old) (O.written out.new) (shown_text shown tables.now block.now)) }
    ensures utf8 { OnOk result (AreUtf8 shown (block.now ∷ [])) }
    ensures less { IsErrOf result Halt.WriteFault
        → AppendsLess (O.written out.old) (O.written out.new)
        (shown_text shown tables.now block.now) }
    ensures kept { IsErrOf result Halt.Memory → Keeps (O.written out.old) (O.written out.new) }
    ensures cause { HasCause (O.faults out.old) (O.faults out.new)
        (IsErrOf result Halt.WriteFault) }
    ensures same { (IsErrOf result Halt.WriteFault → ⊥) → O.faults out.new ≡ O.faults out.old }
{
    let text = shown_text(alloc, shown, tables, block)?;
    write_all(out, &text)?;
    Ok(())
}

// Each text is written before the next is computed.
fn write_all_shown<O: Sink>(
    alloc: Global,
    shown: Shown,
    tables: &TableSet,
    blocks: &[Block],
    out: &mut O,
) -> Result<(), Halt>
    requires { All (IsAnswerable tables.now) blocks.now }
    ensures all { OnOk result (Appends (O.written out.old) (O.written out.new)
        (flat_map (shown_text shown tables.now) blocks.now)) }
    ensures utf8 { OnOk result (AreUtf8 shown blocks.now) }
    ensures less { IsErrOf result Halt.WriteFault
        → AppendsLess (O.written out.old) (O.written out.new)
        (flat_map (shown_text shown tables.now) blocks.now) }
    ensures front { IsErrOf result Halt.Memory
        → GetsFront (λ text. text ≡ flat_map (shown_text shown tables.now) blocks.now)
        (O.written out.old) (O.written out.new) }
    ensures cause { HasCause (O.faults out.old) (O.faults out.new)
        (IsErrOf result Halt.WriteFault) }
    ensures same { (IsErrOf result Halt.WriteFault → ⊥) → O.faults out.new ≡ O.faults out.old }
{
    for block in blocks {
        write_shown(alloc, shown, tables, block, out)?;
    }
    Ok(())
}

// Writes what is wished of statements, and the lines for counts where they are to be told.
fn write_wish<O: Sink, E: Sink, L: Ledger>(
    alloc: Global,
    wish: Wish,
    tables: &TableSet,
    blocks: &[Block],
    out: &mut O,
    err: &mut E,
    steps: &mut Steps<L>,
) -> Result<(), Halt>
    requires { All (IsAnswerable tables.now) blocks.now }
    ensures wrote { WritesOrHalts (Statements wish tables.now blocks.now) (O.faults out.old)
        (O.faults out.new) (O.written out.old) (O.written out.new)
        (E.faults err.old) (E.faults err.new) (E.written err.old)
        (E.written err.new) steps.old steps.new result }
    ensures kept { (IsErrOf result Halt.WriteFault → ⊥)
        → (O.faults out.new ≡ O.faults out.old) × (E.faults err.new ≡ E.faults err.old) }
{
    match wish {
        Wish::Answer(tells) => write_answers(alloc, tells, tables, blocks, out, err, steps),
        Wish::Show(shown) => write_all_shown(alloc, shown, tables, blocks, out),
    }
}

// Writes the summary of the bench.
fn write_bench<O: Sink, L: Ledger>(
    alloc: Global,
    count: u32,
    out: &mut O,
    steps: &mut Steps<L>,
) -> Result<(), Halt>
    requires { IsBenchCount count }
    ensures all { OnOk result
        (Appends (O.written out.old) (O.written out.new) (bench_summary count)) }
    ensures counted { OnOk result ((tests : List ℕ)
        × Takes (bench_set count) bench_blocks tests steps.old steps.new) }
    ensures less { IsErrOf result Halt.WriteFault
        → AppendsLess (O.written out.old) (O.written out.new) (bench_summary count) }
    ensures kept { IsErrOf result Halt.Memory → Keeps (O.written out.old) (O.written out.new) }
    ensures cause { HasCause (O.faults out.old) (O.faults out.new)
        (IsErrOf result Halt.WriteFault) }
    ensures same { (IsErrOf result Halt.WriteFault → ⊥) → O.faults out.new ≡ O.faults out.old }
{
    let text = summary(alloc, count, steps)?;
    write_all(out, &text)?;
    Ok(())
}

// Writes the texts of the work, and what is due beside them.
fn write_texts<O: Sink, E: Sink, L: Ledger>(
    alloc: Global,
    work: &Work,
    out: &mut O,
    err: &mut E,
    steps: &mut Steps<L>,
) -> Result<(), Halt>
    requires { HasTexts work.now }
    ensures wrote { WritesOrHalts work.now (O.faults out.old) (O.faults out.new) (O.written out.old)
        (O.written out.new)
        (E.faults err.old) (E.faults err.new) (E.written err.old)
        (E.written err.new) steps.old steps.new result }
    ensures kept { (IsErrOf result Halt.WriteFault → ⊥)
        → (O.faults out.new ≡ O.faults out.old) × (E.faults err.new ≡ E.faults err.old) }
{
    match work {
        Work::Statements(wish, tables, blocks) => {
            write_wish(alloc, *wish, tables, blocks.as_slice(), out, err, steps)
        }
        Work::Queries(tables, queries) => write_queries(alloc, tables, queries.as_slice(), out),
        Work::Bench(count) => write_bench(alloc, *count, out, steps),
    }
}

/// Writes what a run has to write on `out`, and what is due beside it on `err`.
pub(crate) fn write_work<O: Sink, E: Sink, L: Ledger>(
    alloc: Global,
    work: &Work,
    out: &mut O,
    err: &mut E,
    steps: &mut Steps<L>,
) -> Status
    requires { HasTexts work.now }
    ensures wrote { WritesWork work.now (O.faults out.old) (O.faults out.new) (O.written out.old)
        (O.written out.new)
        (E.faults err.old) (E.faults err.new) (E.written err.old)
        (E.written err.new) steps.old steps.new result }
    ensures kept { (result ≡ Status.WriteFault → ⊥)
        → (O.faults out.new ≡ O.faults out.old) × (E.faults err.new ≡ E.faults err.old) }
{
    match write_texts(alloc, work, out, err, steps) {
        Ok(()) => Status::Done,
        Err(Halt::WriteFault) => Status::WriteFault,
        Err(Halt::Memory) => Status::Memory,
    }
}
