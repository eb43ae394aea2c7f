//! The script of a run: what it asks for over the tables.
ghost use Rattle.std.specs.Prelude.{◌≡◌, ◌<◌, ◌≤◌, Some, IfOk, OnOk, IsErr, IsErrOf, length};
ghost use Rattle.std.specs.Io.KnownBytes.{IsAtEnd};
ghost use Rattle.prefsql_io.specs.Counts.{HasCause};
ghost use Rattle.prefsql_session.specs.Parts.{Asks, Ends, IsOfTask, Reading, Reads};
ghost use Rattle.prefsql_session.specs.ScriptEnd.{script_limit};
ghost use Rattle.prefsql_session.specs.Texts.{AreAnswerable, AreExecutable, HasTexts};

use crate::Task;
use crate::fault::{Fault, Stop};
use crate::work::Work;
use prefsql_io::{ReadError, Source, read_to_end};
use prefsql_lexer::{Spot, tokens};
use prefsql_tables::TableSet;
use prefsql_values::List;
use query_meaning::Block;
use query_parser::parse_script;
use query_typing::type_script;
use read_queries::read_queries_law;
use sql_reader::read_sql;
use sql_tree::SqlQuery;
use std::alloc::Global;

/// E106, for a script of more bytes than the limit, which is its place.
const TOO_LONG: u16 = 106;

/// How deep parentheses of a preference script may nest.
const MAX_NESTING: u32 = 64;

// The greatest number of bytes of a script.
fn script_limit(task: Task) -> u32
    ensures { result ≡ script_limit task }
{
    match task {
        Task::Ask(_) => 1_048_576,
        Task::Execute => 268_435_456,
    }
}

// Reads the script to its end.
fn read_script<S: Source>(alloc: Global, script: &mut S, limit: u32) -> Result<Vec<u8>, Stop>
    ensures follows { Reads limit (S.left script.old) result }
    ensures read { HasCause (S.faults script.old) (S.faults script.new)
        (IsErrOf result Stop.ReadFault) }
    ensures kept { (IsErrOf result Stop.ReadFault → ⊥) → S.faults script.new ≡ S.faults script.old }
    ensures end { OnOk result (IsAtEnd (S.left script.new)) }
{
    match read_to_end(alloc, script, limit as usize) {
        Ok(text) => Ok(text),
        Err(ReadError::TooLong) => Err(Stop::Refused(Fault::Script(Spot {
            code: TOO_LONG,
            at: limit,
        }))),
        Err(ReadError::Failed) => Err(Stop::ReadFault),
        Err(ReadError::Memory) => Err(Stop::Memory),
    }
}

// The queries that a preference script asks: all of it is cut into tokens, then parsed, then typed.
fn queries(alloc: Global, text: &[u8], tables: &TableSet) -> Result<List<Block>, Stop>
    requires { length text.now ≤ 1048576 }
    ensures asks { Asks tables.now text.now result }
    ensures answerable { IfOk result (AreAnswerable tables.now) }
{
    let tokens = tokens(alloc, text, MAX_NESTING)?;
    let trees = parse_script(alloc, tokens.as_slice(), text.len() as u32)?;
    Ok(type_script(alloc, trees.as_slice(), tables)?)
}

// The queries of an SQL script: all of it is read over the tables.
fn sql_queries(alloc: Global, text: &[u8], tables: &TableSet) -> Result<List<SqlQuery>, Stop>
    requires { length text.now ≤ 268435456 }
    ensures reads { Reading tables.now text.now result }
    ensures executable { IfOk result (AreExecutable tables.now) }
{
    tables.keeps_limits();
    read_queries_law();
    Ok(read_sql(alloc, text, tables)?)
}

// What the text of a script asks for.
fn text_work(alloc: Global, task: Task, tables: TableSet, text: &[u8]) -> Result<Work, Stop>
    requires { length text.now ≤ script_limit task }
    ensures follows { Ends task tables (Some text.now) result }
    ensures unread { IsErrOf result Stop.ReadFault → ⊥ }
    ensures asked { IfOk result (IsOfTask task) }
    ensures texts { IfOk result HasTexts }
{
    match task {
        Task::Ask(wish) => {
            let blocks = queries(alloc, text, &tables)?;
            Ok(Work::Statements(wish, tables, blocks))
        }
        Task::Execute => {
            let queries = sql_queries(alloc, text, &tables)?;
            Ok(Work::Queries(tables, queries))
        }
    }
}

/// Reads the script to its end, and finds what it asks for over the tables.
pub(crate) fn read_work<S: Source>(
    alloc: Global,
    task: Task,
    tables: TableSet,
    script: &mut S,
) -> Result<Work, Stop>
    ensures follows { Ends task tables (S.left script.old) result }
    ensures asked { IfOk result (IsOfTask task) }
    ensures texts { IfOk result HasTexts }
    ensures read { HasCause (S.faults script.old) (S.faults script.new)
        (IsErrOf result Stop.ReadFault) }
    ensures kept { (IsErrOf result Stop.ReadFault → ⊥) → S.faults script.new ≡ S.faults script.old }
    ensures end { OnOk result (IsAtEnd (S.left script.new)) }
{
    let text = read_script(alloc, script, script_limit(task))?;
    text_work(alloc, task, tables, &text)
}
