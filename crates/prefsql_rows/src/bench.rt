//! The table of the bench, its statements and what it writes.
ghost use Rattle.std.specs.Prelude.{◌≡◌, ◌≤◌, ◌<◌, length};
ghost use Rattle.query_meaning.specs.BlockFits.{FitsTables};
ghost use Rattle.query_meaning.specs.Valid.{IsValidBlock};
ghost use Rattle.prefsql_bench.specs.BenchTable.{bench_set};

use prefsql_bench::{bench_blocks, bench_tables, bench_text};
use prefsql_lexer::tokens;
use prefsql_tables::TableSet;
use prefsql_values::{Cell, Memory, not_distinct};
use query_meaning::{Block, plain_answer};
use query_parser::parse_script;
use query_typing::type_script;
use std::alloc::Global;
use std::process::Abort;
use std::test::Fail;

/// The queries of a script over the table of the bench, as they are printed.
fn typed(alloc: Global, script: &str) -> Result<String, Fail>
    requires { length script.now ≤ 1048576 }
{
    let Ok(found) = tokens(alloc, script.as_bytes(), 64) else {
        return Err("refused by the lexer".into());
    };
    let Ok(trees) = parse_script(alloc, found.as_slice(), script.len() as u32) else {
        return Err("refused by the grammar".into());
    };
    let tables = bench_tables(alloc, 1)?;
    match type_script(alloc, trees.as_slice(), &tables) {
        Ok(blocks) => Ok(format!(in alloc; "{blocks:?}")?),
        Err(_) => Err("refused by typing".into()),
    }
}

#[test]
fn the_bench_asks_its_statements(rt: HostRuntime) -> Result<(), Fail> {
    let script =
        "SELECT ID FROM BENCH PREFERRING LOWEST(A) AND LOWEST(B) AND HIGHEST(C); SELECT ID FROM BENCH PREFERRING A AROUND 500 CASCADE LOWEST(B) GROUPING G; SELECT ID FROM BENCH PREFERRING (G IN (3, 7) ELSE G <> 0) AND LOWEST(A)";
    let alloc = rt.alloc();
    let built = bench_blocks(alloc)?;
    let built = format!(in alloc; "{built:?}")?;
    assert_eq!(rt; typed(alloc, script)?.as_str(), built.as_str());
    Ok(())
}

/// The row of the table of the bench has these numbers.
fn row_stands(rt: &impl Abort, tables: &TableSet, row: u32, numbers: [i128; 5])
    requires tables { tables.now ≡ bench_set 3 }
    requires row { row < 3 }
{
    let [id, a, b, c, group] = numbers;
    assert!(rt; not_distinct(tables.cell(0, row, 0), Cell::Num(id)));
    assert!(rt; not_distinct(tables.cell(0, row, 1), Cell::Num(a)));
    assert!(rt; not_distinct(tables.cell(0, row, 2), Cell::Num(b)));
    assert!(rt; not_distinct(tables.cell(0, row, 3), Cell::Num(c)));
    assert!(rt; not_distinct(tables.cell(0, row, 4), Cell::Num(group)));
}

// The numbers are from a program in another language.
#[test]
fn the_first_rows_of_the_bench(rt: HostRuntime) -> Result<(), Fail> {
    let tables = bench_tables(rt.alloc(), 3)?;
    row_stands(&rt, &tables, 0, [1, 334, 26, 538, 3]);
    row_stands(&rt, &tables, 1, [2, 294, 156, 969, 0]);
    row_stands(&rt, &tables, 2, [3, 166, 125, 304, 0]);
    Ok(())
}

/// How many rows the answer of a query has.
fn answer_rows(alloc: Global, block: &Block, tables: &TableSet) -> Result<usize, Memory>
    requires valid { IsValidBlock block.now }
    requires fits { FitsTables tables.now block.now }
{
    let answer = plain_answer(alloc, block, tables)?;
    Ok(answer.rows.as_slice().len())
}

/// What the bench writes, by the answers of its queries.
fn summary(alloc: Global, row_count: u32) -> Result<Vec<u8>, Memory>
    requires some { 1 ≤ row_count }
    requires few { row_count ≤ 100000 }
{
    let tables = bench_tables(alloc, row_count)?;
    let mut rows = Vec::new(alloc);
    let blocks = bench_blocks(alloc)?;
    for block in blocks.as_slice() {
        rows.push(answer_rows(alloc, block, &tables)?)?;
    }
    bench_text(alloc, row_count, &rows)
}

// The numbers of rows are from a program in another language.
#[test]
fn the_bench_counts_rows(rt: HostRuntime) -> Result<(), Fail> {
    let few = summary(rt.alloc(), 1)?;
    let want = "bench 1\nstatement 1 rows 1\nstatement 2 rows 1\nstatement 3 rows 1\n";
    assert_eq!(rt; few.as_slice(), want.as_bytes());
    let more = summary(rt.alloc(), 200)?;
    let want = "bench 200\nstatement 1 rows 13\nstatement 2 rows 10\nstatement 3 rows 1\n";
    assert_eq!(rt; more.as_slice(), want.as_bytes());
    Ok(())
}
