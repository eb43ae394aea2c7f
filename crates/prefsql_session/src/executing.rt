//! The answers of SQL queries.
ghost use Rattle.std.specs.Prelude.{◌≡◌, IfOk, OnOk, IsErrOf};
ghost use Rattle.std.specs.Io.KnownBytes.{Appends, Keeps};
ghost use Rattle.std.specs.List.{flat_map};
ghost use Rattle.prefsql_io.specs.Counts.{HasCause};
ghost use Rattle.prefsql_io.specs.Streams.{AppendsLess};
ghost use Rattle.query_meaning.specs.Answers.{answer_of};
ghost use Rattle.table_csv.specs.AnswerText.{text_of_answer};
ghost use Rattle.prefsql_session.specs.Run.{GetsFront};
ghost use Rattle.prefsql_session.specs.Texts.{AreExecutable, IsAnswerable, IsExecutable, query_text};

use crate::halt::Halt;
use prefsql_io::{Sink, write_all};
use prefsql_tables::TableSet;
use prefsql_values::Memory;
use query_meaning::Block;
use sql_exec::execute;
use sql_rewriter::rewrite;
use sql_tree::SqlQuery;
use std::alloc::Global;
use table_csv::answer_text;
use written_query_validity::writes_fitting;

/// The answer of a statement by its SQL query.
pub(crate) fn executed(alloc: Global, tables: &TableSet, block: &Block) -> Result<Vec<u8>, Memory>
    requires { IsAnswerable tables.now block.now }
    ensures { IfOk result (λ text. text.items ≡ text_of_answer (answer_of tables.now block.now)) }
{
    tables.keeps_limits();
    writes_fitting(block);
    let query = rewrite(alloc, block)?;
    let answer = execute(alloc, &query, tables)?;
    answer_text(alloc, &answer)
}

// The answer of an SQL query.
fn query_text(alloc: Global, tables: &TableSet, query: &SqlQuery) -> Result<Vec<u8>, Memory>
    requires { IsExecutable tables.now query.now }
    ensures { IfOk result (λ text. text.items ≡ query_text tables.now query.now) }
{
    let answer = execute(alloc, query, tables)?;
    answer_text(alloc, &answer)
}

// Computes the answer of an SQL query, and then writes it.
fn write_query<O: Sink>(
    alloc: Global,
    tables: &TableSet,
    query: &SqlQuery,
    out: &mut O,
) -> Result<(), Halt>
    requires { IsExecutable tables.now query.now }
    ensures all { OnOk result
        (Appends (O.written out.old) (O.written out.new) (query_text tables.now query.now)) }
    ensures less { IsErrOf result Halt.WriteFault
        → AppendsLess (O.written out.old) (O.written out.new) (query_text tables.now query.now) }
    ensures kept { IsErrOf result Halt.Memory → Keeps (O.written out.old) (O.written out.new) }
    ensures cause { HasCause (O.faults out.old) (O.faults out.new)
        (IsErrOf result Halt.WriteFault) }
    ensures same { (IsErrOf result Halt.WriteFault → ⊥) → O.faults out.new ≡ O.faults out.old }
{
    let text = query_text(alloc, tables, query)?;
    write_all(out, &text)?;
    Ok(())
}

/// Answers SQL queries in order. Each answer is written before the next is computed.
pub(crate) fn write_queries<O: Sink>(
    alloc: Global,
    tables: &TableSet,
    queries: &[SqlQuery],
    out: &mut O,
) -> Result<(), Halt>
    requires { AreExecutable tables.now queries.now }
    ensures all { OnOk result (Appends (O.written out.old) (O.written out.new)
        (flat_map (query_text tables.now) queries.now)) }
    ensures less { IsErrOf result Halt.WriteFault
        → AppendsLess (O.written out.old) (O.written out.new)
        (flat_map (query_text tables.now) queries.now) }
    ensures front { IsErrOf result Halt.Memory
        → GetsFront (λ text. text ≡ flat_map (query_text tables.now) queries.now)
        (O.written out.old) (O.written out.new) }
    ensures cause { HasCause (O.faults out.old) (O.faults out.new)
        (IsErrOf result Halt.WriteFault) }
    ensures same { (IsErrOf result Halt.WriteFault → ⊥) → O.faults out.new ≡ O.faults out.old }
{
    for query in queries {
        write_query(alloc, tables, query, out)?;
    }
    Ok(())
}
