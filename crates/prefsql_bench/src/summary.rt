//! The summary of the bench.
ghost use Rattle.std.specs.Prelude.{◌≡◌, ◌++◌, IfOk, OnOk, codes, decimal, string_bytes};
ghost use Rattle.prefsql_bench.specs.Summary.{bench_text, statement_line};

use prefsql_values::Memory;
use std::alloc::Global;

/// The summary of the bench over the table with this many rows, where these are the numbers of rows
/// of the answers. The only error is want of memory.
pub fn bench_text(alloc: Global, row_count: u32, answer_rows: &[usize]) -> Result<Vec<u8>, Memory>
    ensures { IfOk result (λ text. text.items ≡ bench_text row_count answer_rows.now) }
{
    let mut text = String::new(alloc);
    add_head(row_count, &mut text)?;
    for (place, rows) in answer_rows.iter().enumerate() {
        add_line(place + 1, *rows, &mut text)?;
    }
    Ok(text.into_bytes())
}

/// Adds the line `bench N`.
fn add_head(row_count: u32, text: &mut String) -> Result<(), Memory>
    ensures { OnOk result (string_bytes text.new ≡ string_bytes text.old
        ++ (codes "bench " ++ decimal row_count ++ codes "\n")) }
{
    write!(text, "bench {row_count}\n")?;
    Ok(())
}

/// Adds the line of a statement.
fn add_line(number: usize, rows: usize, text: &mut String) -> Result<(), Memory>
    ensures { OnOk result (string_bytes text.new ≡ string_bytes text.old
        ++ statement_line number rows) }
{
    write!(text, "statement {number} rows {rows}\n")?;
    Ok(())
}
