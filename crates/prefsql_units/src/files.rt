//! Tables read from files, and answers as texts.
ghost use Rattle.std.specs.Prelude.{◌<◌, length};
ghost use Rattle.prefsql_tables.specs.Table.{HasTable, rows_of};

use prefsql_tables::{Answer, AnswerRow, TableSet};
use prefsql_values::{Cell, List, Memory, Text, Value, not_distinct};
use std::alloc::{AllocError, Global};
use std::test::Fail;
use table_csv::{TableFault, TableSpot, answer_text, read_table};

fn spot(code: u16, at_record: u32, at_field: u32) -> Option<TableFault> {
    Some(TableFault::Bad(TableSpot {
        code,
        at_record,
        at_field,
    }))
}

// The header of this many columns.
fn header_of(alloc: Global, columns: u32) -> Result<String, AllocError> {
    let mut text = String::from_str(alloc, "c0 TEXT")?;
    for n in 1..columns {
        text.push_str(format!(in alloc; ",c{n} TEXT")?.as_str())?;
    }
    Ok(text)
}

// The file of one column with this many rows.
fn rows_file(alloc: Global, rows: u32) -> Result<String, AllocError> {
    let mut text = String::from_str(alloc, "a TEXT\n")?;
    for _ in 0..rows {
        text.push_str("x\n")?;
    }
    Ok(text)
}

#[test]
fn first_faults(rt: HostRuntime) -> Result<(), Fail> {
    let alloc = rt.alloc();
    for (file, code, at_record, at_field) in [
        ("a NUMBER", 501, 1, 1),
        ("a INTEGER,A TEXT", 502, 1, 2),
        ("a INTEGER,b TEXT\n1", 503, 2, 0),
        ("a INTEGER NOT NULL\n1\nx", 504, 3, 1),
        ("a INTEGER\n1000000000000000000", 505, 2, 1),
        ("a INTEGER NOT NULL,b TEXT\n,x", 506, 2, 1),
        ("a TEXT\nx\0", 507, 2, 1),
        ("", 510, 0, 0),
        ("a_1 TEXT,1a TEXT", 501, 1, 2),
        ("a TEXT NOT,b TEXT", 501, 1, 1),
        ("a INTEGER\n-+1", 504, 2, 1),
        ("a INTEGER\n+", 504, 2, 1),
        ("a INTEGER\n-0000000000000000001", 505, 2, 1),
        ("a INTEGER,b INTEGER NOT NULL\nx,\n1", 504, 2, 1),
    ] {
        assert_eq!(rt;
            read_table(alloc, file.as_bytes()).err(),
            spot(code, at_record, at_field),
            "{file}"
        );
    }
    let no_text = read_table(alloc, b"a TEXT,\xff INTEGER");
    assert_eq!(rt; no_text.err(), spot(507, 1, 2));
    let full = rows_file(alloc, 100_000)?;
    assert_eq!(rt; read_table(alloc, full.as_bytes()).err(), None);
    let over = rows_file(alloc, 100_001)?;
    assert_eq!(rt;
        read_table(alloc, over.as_bytes()).err(),
        spot(508, 100_002, 0)
    );
    let widest = header_of(alloc, 64)?;
    assert_eq!(rt; read_table(alloc, widest.as_bytes()).err(), None);
    let wider = header_of(alloc, 65)?;
    assert_eq!(rt; read_table(alloc, wider.as_bytes()).err(), spot(509, 1, 0));
    Ok(())
}

fn values_of(alloc: Global, set: &TableSet, row: u32) -> Result<List<Value>, Memory>
    requires table { HasTable set.now 0 }
    requires row { row < length (rows_of set.now 0) }
{
    let mut cells = List::new(alloc);
    for (column, _) in set.schema(0).columns.as_slice().iter().enumerate() {
        if column < 64 {
            cells.push(set.cell(0, row, column as u32).to_value(alloc)?)?;
        }
    }
    Ok(cells)
}

// The table of the file, written as an answer.
fn answer_of(alloc: Global, file: &str) -> Result<Vec<u8>, Fail> {
    let mut set = TableSet::new(alloc);
    set.add_table(Text::of(alloc, "T")?, read_table(alloc, file.as_bytes())?)?;
    let mut names = List::new(alloc);
    for column in set.schema(0).columns.as_slice() {
        names.push(column.name.copy(alloc)?)?;
    }
    let mut rows = List::new(alloc);
    for row in 0..set.row_count(0) {
        rows.push(AnswerRow {
            cells: values_of(alloc, &set, row)?,
        })?;
    }
    Ok(answer_text(alloc, &Answer { names, rows })?)
}

#[test]
fn tables_as_answers(rt: HostRuntime) -> Result<(), Fail> {
    for (file, text) in [
        ("t INTEGER", "T\n\n"),
        (
            "n INTEGER,m INTEGER\n999999999999999999,+5",
            "N,M\n999999999999999999,5\n\n",
        ),
        (
            "n INTEGER\n-999999999999999999\n-0\n007\n",
            "N\n-999999999999999999\n0\n7\n\n",
        ),
        (
            "  select   text not  Null ,b integer\n,\n",
            "SELECT,B\n,\n\n",
        ),
        ("\u{feff}a TEXT\r\n\r\nx\ry", "A\nx\ny\n\n"),
        ("a TEXT\n\"\"", "A\n\"\"\n\n"),
    ] {
        let answer = answer_of(rt.alloc(), file)?;
        assert_eq!(rt; answer.as_slice(), text.as_bytes(), "{file}");
    }
    Ok(())
}

#[test]
fn a_quoted_field_keeps_itself(rt: HostRuntime) -> Result<(), Fail> {
    let alloc = rt.alloc();
    let file = "t TEXT NOT NULL\nplain\n\"it's, \"\"x\"\"\ny\"\n";
    let mut set = TableSet::new(alloc);
    set.add_table(Text::of(alloc, "T")?, read_table(alloc, file.as_bytes())?)?;
    assert_eq!(rt; set.row_count(0), 2);
    assert!(rt; not_distinct(set.cell(0, 1, 0), Cell::Str("it's, \"x\"\ny")));
    let mut names = List::new(alloc);
    names.push(Text::of(alloc, "T")?)?;
    let mut rows = List::new(alloc);
    rows.push(AnswerRow {
        cells: values_of(alloc, &set, 1)?,
    })?;
    let text = answer_text(alloc, &Answer { names, rows })?;
    assert_eq!(rt;
        text.as_slice(),
        b"T\n\"it's, \"\"x\"\"\ny\"\n\n".as_slice()
    );
    Ok(())
}
