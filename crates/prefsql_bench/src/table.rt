//! The table of the bench.
ghost use Rattle.std.specs.Prelude.{◌≡◌, ◌+◌, ◌*◌, ◌<◌, ◌≤◌, map, IfOk};
ghost use Rattle.prefsql_bench.specs.BenchTable.{bench_columns, bench_data, bench_numbers, bench_set, number_column, number_value};
ghost use Rattle.prefsql_bench.specs.Draws.{state_after};

use crate::draws::Draws;
use prefsql_tables::{AddError, AnswerRow, Column, Schema, Table, TableSet};
use prefsql_values::{Domain, List, Memory, Text, Value};
use std::alloc::Global;

/// The set of the table BENCH with this many rows alone. The only error is want of memory.
pub fn bench_tables(alloc: Global, row_count: u32) -> Result<TableSet, Memory>
    requires some { 1 ≤ row_count }
    requires few { row_count ≤ 100000 }
    ensures { IfOk result (λ tables. tables ≡ bench_set row_count) }
{
    let table = bench_table(alloc, row_count)?;
    let mut tables = TableSet::new(alloc);
    match tables.add_table(Text::of(alloc, "BENCH")?, table) {
        Ok(()) => Ok(tables),
        Err(AddError::Duplicate) => unreachable!(),
        Err(AddError::Memory) => Err(Memory),
    }
}

/// The table of the bench with this many rows: whole numbers in the columns ID, A, B, C and G. The
/// only error is want of memory.
pub fn bench_table(alloc: Global, row_count: u32) -> Result<Table, Memory>
    requires some { 1 ≤ row_count }
    requires few { row_count ≤ 100000 }
    ensures { IfOk result (λ table. table ≡ bench_data row_count) }
{
    let mut table = Table::new(alloc, schema(alloc)?);
    let mut draws = Draws::new();
    for place in 0..row_count {
        let numbers = numbers(place, &mut draws);
        table.push_row(row(alloc, &numbers)?)?;
    }
    Ok(table)
}

/// The columns of the table.
pub(crate) fn schema(alloc: Global) -> Result<Schema, Memory>
    ensures { IfOk result (λ schema. schema.columns ≡ bench_columns) }
{
    let mut columns = List::new(alloc);
    columns.push(column(alloc, "ID")?)?;
    columns.push(column(alloc, "A")?)?;
    columns.push(column(alloc, "B")?)?;
    columns.push(column(alloc, "C")?)?;
    columns.push(column(alloc, "G")?)?;
    Ok(Schema { columns })
}

/// A column of whole numbers without NULL.
fn column(alloc: Global, name: &str) -> Result<Column, Memory>
    ensures { IfOk result (λ column. column ≡ number_column name.now) }
{
    Ok(Column {
        name: Text::of(alloc, name)?,
        domain: Domain::Integer,
        nullable: false,
    })
}

/// The numbers of the row at a place, from 0, once those of the rows before it are drawn.
#[tactic(auto, using(crate::proofs::DrawLemmas::state_after_more))]
fn numbers(place: u32, draws: &mut Draws) -> [u64; 5]
    requires place { place < 100000 }
    requires before { draws.old.state ≡ state_after (4 * place) }
    ensures numbers { result ≡ bench_numbers place }
    ensures after { draws.new.state ≡ state_after (4 * (place + 1)) }
{
    let id = u64::from(place) + 1;
    let a = draws.draw() % 1000;
    let b = draws.draw() % 1000;
    let c = draws.draw() % 1000;
    let group = draws.draw() % 10;
    [id, a, b, c, group]
}

/// The row of these numbers.
fn row(alloc: Global, numbers: &[u64]) -> Result<AnswerRow, Memory>
    ensures { IfOk result (λ row. row.cells ≡ map number_value numbers.now) }
{
    Ok(AnswerRow {
        cells: number_values(alloc, numbers)?,
    })
}

/// The numbers as values.
pub(crate) fn number_values(alloc: Global, numbers: &[u64]) -> Result<List<Value>, Memory>
    ensures { IfOk result (λ values. values ≡ map number_value numbers.now) }
{
    let mut values = List::new(alloc);
    for number in numbers {
        values.push(Value::Num(i128::from(*number)))?;
    }
    Ok(values)
}
