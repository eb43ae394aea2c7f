//! Tables in a set, and answers that are arranged.
ghost use Rattle.std.specs.Prelude.{◌≡◌, ◌∷◌, [], codes, true, false, IfOk};
ghost use Rattle.prefsql_values.specs.Value.{value_of};
ghost use Rattle.prefsql_values.specs.declared.value.Domain.TheVariants.{Integer, Chars};
ghost use Rattle.prefsql_tables.specs.Table.{HasTable};

use prefsql_tables::{AddError, Answer, AnswerRow, Column, Schema, SortKey, Table, TableSet};
use prefsql_values::{Cell, Domain, List, Memory, Text, Value, not_distinct};
use std::alloc::Global;
use std::process::Abort;
use std::test::Fail;

fn column(alloc: Global, name: &str, domain: Domain, nullable: bool) -> Result<Column, Memory>
    ensures { IfOk result
        (λ column. column ≡ record { name = name.now; domain = domain; nullable = nullable }) }
{
    let name = Text::of(alloc, name)?;
    Ok(Column {
        name,
        domain,
        nullable,
    })
}

fn schema(alloc: Global) -> Result<Schema, Memory>
    ensures { IfOk result
        (λ schema. schema.columns ≡ record { name = codes "ID"; domain = Integer; nullable = false }
        ∷ record { name = codes "DEALER"; domain = Chars; nullable = true } ∷ []) }
{
    let mut columns = List::new(alloc);
    columns.push(column(alloc, "ID", Domain::Integer, false)?)?;
    columns.push(column(alloc, "DEALER", Domain::Chars, true)?)?;
    Ok(Schema { columns })
}

fn row(alloc: Global, first: Cell<'_>, second: Cell<'_>) -> Result<AnswerRow, Memory>
    ensures { IfOk result (λ row. row.cells ≡ value_of first.entry ∷ value_of second.entry ∷ []) }
{
    let mut cells = List::new(alloc);
    cells.push(first.to_value(alloc)?)?;
    cells.push(second.to_value(alloc)?)?;
    Ok(AnswerRow { cells })
}

fn cars(alloc: Global) -> Result<Table, Memory> {
    let mut table = Table::new(alloc, schema(alloc)?);
    table.push_row(row(alloc, Cell::Num(1), Cell::Str("north"))?)?;
    table.push_row(row(alloc, Cell::Num(4), Cell::Null)?)?;
    Ok(table)
}

fn cars_stand(rt: &impl Abort, tables: &TableSet, table: u32)
    requires { HasTable tables.now table }
{
    assert_eq!(rt; tables.row_count(table), 2);
    assert_eq!(rt; tables.schema(table).columns.as_slice().len(), 2);
    assert!(rt; not_distinct(tables.cell(table, 0, 0), Cell::Num(1)));
    assert!(rt; not_distinct(tables.cell(table, 0, 1), Cell::Str("north")));
    assert!(rt; not_distinct(tables.cell(table, 1, 0), Cell::Num(4)));
    assert!(rt; not_distinct(tables.cell(table, 1, 1), Cell::Null));
}

#[test]
fn a_name_stands_once(rt: HostRuntime) -> Result<(), Fail> {
    let mut tables = TableSet::new(rt.alloc());
    tables.add_table(Text::of(rt.alloc(), "CARS")?, cars(rt.alloc())?)?;
    cars_stand(&rt, &tables, 0);
    let again = Table::new(rt.alloc(), schema(rt.alloc())?);
    let refused = tables.add_table(Text::of(rt.alloc(), "CARS")?, again);
    assert_eq!(rt; refused, Err(AddError::Duplicate));
    cars_stand(&rt, &tables, 0);
    assert_eq!(rt; tables.find("CARS"), Some(0));
    assert_eq!(rt; tables.find("DEALERS"), None);
    let copy = schema(rt.alloc())?.copy(rt.alloc())?;
    for (table, name, is_there) in [(0, "CARS", true), (1, "CARS", false), (0, "DEALERS", false)] {
        assert_eq!(rt;
            tables.has_table_at(table, name, &copy),
            is_there,
            "{name} at {table}"
        );
    }
    Ok(())
}

// The dealers and colors of five cars, each twice, by `SELECT DISTINCT dealer, color FROM cars
// ORDER BY dealer DESC`.
#[test]
fn null_is_first_descending(rt: HostRuntime) -> Result<(), Fail> {
    let mut rows = List::new(rt.alloc());
    for _turn in 0..2 {
        for (dealer, color) in [
            (Cell::Str("north"), "red"),
            (Cell::Str("north"), "blue"),
            (Cell::Str("south"), "red"),
            (Cell::Null, "grey"),
            (Cell::Null, "blue"),
        ] {
            rows.push(row(rt.alloc(), dealer, Cell::Str(color))?)?;
        }
    }
    let mut names = List::new(rt.alloc());
    names.push(Text::of(rt.alloc(), "DEALER")?)?;
    names.push(Text::of(rt.alloc(), "COLOR")?)?;
    let key = SortKey {
        column: 0,
        descending: true,
    };
    let answer = Answer { names, rows }.arrange(rt.alloc(), true, &[key])?;
    let want = [
        (Cell::Null, "blue"),
        (Cell::Null, "grey"),
        (Cell::Str("south"), "red"),
        (Cell::Str("north"), "blue"),
        (Cell::Str("north"), "red"),
    ];
    assert_eq!(rt; answer.rows.as_slice().len(), 5);
    for (row, (dealer, color)) in answer.rows.as_slice().iter().zip(want) {
        let [first, second] = row.cells.as_slice() else {
            return Err("a row of other than two cells".into());
        };
        assert!(rt; not_distinct(first.cell(), dealer));
        assert!(rt; not_distinct(second.cell(), Cell::Str(color)));
    }
    Ok(())
}
