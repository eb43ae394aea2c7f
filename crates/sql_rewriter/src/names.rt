//! The names that a written query gives, and the columns to which they belong.
ghost use Rattle.std.specs.Prelude.{◌≡◌, ◌++◌, IfOk};
ghost use Rattle.std.specs.Fmt.{decimal};
ghost use Rattle.rewritten_query.specs.Names.{candidates_name, code_name, column_name, column_up, of_tables, rank_name, rival_name, rivals_name, table_name};

use prefsql_tables::ColumnPlace;
use prefsql_values::{Memory, Text};
use sql_tree::{SqlPlace, SqlScalar};
use std::alloc::Global;

/// A letter and a number.
fn lettered(alloc: Global, letter: &str, n: u32) -> Result<Text, Memory>
    ensures { IfOk result (λ text. text ≡ letter.now ++ decimal n) }
{
    let name = format!(in alloc; "{letter}{n}")?;
    Text::of(alloc, name.as_str())
}

/// `T1`, `T2`, ..: the FROM tables.
pub(crate) fn table_name(alloc: Global, n: u32) -> Result<Text, Memory>
    ensures { IfOk result (λ text. text ≡ table_name n) }
{
    lettered(alloc, "T", n)
}

/// `C1`, `C2`, ..: the columns that are used.
pub(crate) fn column_name(alloc: Global, n: u32) -> Result<Text, Memory>
    ensures { IfOk result (λ text. text ≡ column_name n) }
{
    lettered(alloc, "C", n)
}

/// `L1`, `L2`, ..: what the leaves rank by.
pub(crate) fn rank_name(alloc: Global, n: u32) -> Result<Text, Memory>
    ensures { IfOk result (λ text. text ≡ rank_name n) }
{
    lettered(alloc, "L", n)
}

/// `E1`, `E2`, ..: the codes of EXPLICIT leaves.
pub(crate) fn code_name(alloc: Global, n: u32) -> Result<Text, Memory>
    ensures { IfOk result (λ text. text ≡ code_name n) }
{
    lettered(alloc, "E", n)
}

/// `A1`: the candidates.
pub(crate) fn candidates_name(alloc: Global) -> Result<Text, Memory>
    ensures { IfOk result (λ text. text ≡ candidates_name) }
{
    lettered(alloc, "A", 1)
}

/// `A2`: the candidates once more, as rivals.
pub(crate) fn rivals_name(alloc: Global) -> Result<Text, Memory>
    ensures { IfOk result (λ text. text ≡ rivals_name) }
{
    lettered(alloc, "A", 2)
}

/// `X1`: the one item of the query of rivals.
pub(crate) fn rival_name(alloc: Global) -> Result<Text, Memory>
    ensures { IfOk result (λ text. text ≡ rival_name) }
{
    lettered(alloc, "X", 1)
}

/// A column of the tables, where they stand in FROM.
pub(crate) fn of_tables(place: ColumnPlace) -> SqlScalar
    ensures { result ≡ of_tables place }
{
    SqlScalar::Column(SqlPlace {
        up: 0,
        item: place.table,
        column: place.column,
    })
}

/// A column of the one FROM item of the query that is so many queries up.
pub(crate) fn column_up(up: u32, column: u32) -> SqlScalar
    ensures { result ≡ column_up up column }
{
    SqlScalar::Column(SqlPlace {
        up,
        item: 0,
        column,
    })
}
