//! From the bytes of an SQL text to its queries.

ghost use Rattle.std.specs.Prelude.{◌≤◌, IfErr, IfOk, length};
ghost use Rattle.sql_reader.specs.Answers.{SaysFirst};
ghost use Rattle.sql_reader.specs.Reads.{ReadsAs};

use crate::fault::SqlFault;
use prefsql_lexer::tokens;
use prefsql_tables::TableSet;
use prefsql_values::List;
use sql_parser::parse_sql;
use sql_resolver::resolve;
use sql_tree::SqlQuery;
use std::alloc::Global;

/// How deep parentheses and CASE of an SQL text may nest.
const MAX_NESTING: u32 = 256;

/// The queries of an SQL text over these tables, or its first fault: all of it is cut into tokens,
/// then parsed, then its names are resolved. The text has at most 256 MiB.
///
/// The language is this project's own profile of SQL-92 (ISO/IEC 9075:1992).
pub fn read_sql(alloc: Global, bytes: &[u8], tables: &TableSet) -> Result<List<SqlQuery>, SqlFault>
    requires { length bytes.now ≤ 268435456 }
    ensures reads { IfOk result (ReadsAs tables.now bytes.now) }
    ensures fault { IfErr result (SaysFirst tables.now bytes.now) }
{
    let tokens = tokens(alloc, bytes, MAX_NESTING)?;
    let statements = parse_sql(alloc, tokens.as_slice(), bytes.len() as u32)?;
    Ok(resolve(alloc, statements.as_slice(), tables)?)
}
