//! Which tables an SQL query fits.
ghost use Rattle.std.specs.Prelude.{◌≡◌, ◌∷◌, [], true, IfOk};
ghost use Rattle.prefsql_values.specs.declared.value.Domain.TheVariants.{Integer};

use prefsql_tables::{Column, Schema, Table, TableSet};
use prefsql_values::{Boxed, Domain, List, Memory, Text};
use sql_tree::{SqlCond, SqlFrom, SqlQuery, SqlSource, SqlTable};
use std::alloc::Global;
use std::test::Fail;

/// One column of numbers.
fn schema(alloc: Global, column: &str) -> Result<Schema, Memory>
    ensures { IfOk result (λ schema. schema.columns ≡ record {
      name = column.now;
      domain = Integer;
      nullable = true;
    } ∷ []) }
{
    let name = Text::of(alloc, column)?;
    let mut columns = List::new(alloc);
    columns.push(Column {
        name,
        domain: Domain::Integer,
        nullable: true,
    })?;
    Ok(Schema { columns })
}

fn table(alloc: Global, index: u32, name: &str, column: &str) -> Result<SqlSource, Memory> {
    let schema = schema(alloc, column)?;
    match Text::of(alloc, name) {
        Ok(name) => Ok(SqlSource::Table(SqlTable {
            index,
            name,
            schema,
        })),
        Err(memory) => Err(memory),
    }
}

/// `FROM source AS S`.
fn from(alloc: Global, source: SqlSource) -> Result<SqlFrom, Memory> {
    match Text::of(alloc, "S") {
        Ok(name) => Ok(SqlFrom { name, source }),
        Err(memory) => Err(memory),
    }
}

/// `SELECT from WHERE filter`, without items.
fn query(alloc: Global, item: SqlFrom, filter: Option<SqlCond>) -> Result<SqlQuery, Memory> {
    let mut from = List::new(alloc);
    match from.push(item) {
        Ok(()) => Ok(SqlQuery {
            distinct: false,
            items: List::new(alloc),
            from,
            filter,
            order: List::new(alloc),
        }),
        Err(memory) => Err(memory),
    }
}

fn over_table(alloc: Global, index: u32, name: &str, column: &str) -> Result<SqlQuery, Memory> {
    let table = table(alloc, index, name, column)?;
    let item = from(alloc, table)?;
    query(alloc, item, None)
}

fn derived(alloc: Global, query: SqlQuery) -> Result<SqlFrom, Memory> {
    let query = Boxed::new(alloc, query)?;
    from(alloc, SqlSource::Derived(query))
}

fn exists(alloc: Global, query: SqlQuery) -> Result<SqlCond, Memory> {
    let query = Boxed::new(alloc, query)?;
    Ok(SqlCond::Exists(query))
}

/// From the rows, where a row of the table exists.
fn kept(
    alloc: Global,
    rows: SqlFrom,
    index: u32,
    name: &str,
    column: &str,
) -> Result<SqlQuery, Memory> {
    match over_table(alloc, index, name, column) {
        Ok(inner) => match exists(alloc, inner) {
            Ok(filter) => query(alloc, rows, Some(filter)),
            Err(memory) => Err(memory),
        },
        Err(memory) => Err(memory),
    }
}

/// The set with the one table CARS, of the column ID.
fn cars(alloc: Global) -> Result<TableSet, Fail> {
    let name = Text::of(alloc, "CARS")?;
    let schema = schema(alloc, "ID")?;
    let mut tables = TableSet::new(alloc);
    tables.add_table(name, Table::new(alloc, schema))?;
    Ok(tables)
}

fn fits_in_exists(
    alloc: Global,
    tables: &TableSet,
    index: u32,
    name: &str,
    column: &str,
) -> Result<bool, Memory> {
    let rows = over_table(alloc, 0, "CARS", "ID")?;
    let rows = derived(alloc, rows)?;
    let query = kept(alloc, rows, index, name, column)?;
    Ok(query.fits(tables))
}

fn fits_in_from(
    alloc: Global,
    tables: &TableSet,
    index: u32,
    name: &str,
    column: &str,
) -> Result<bool, Memory> {
    let rows = over_table(alloc, index, name, column)?;
    let rows = derived(alloc, rows)?;
    let query = kept(alloc, rows, 0, "CARS", "ID")?;
    Ok(query.fits(tables))
}

#[test]
fn each_inner_table_is_looked_at(rt: HostRuntime) -> Result<(), Fail> {
    let tables = cars(rt.alloc())?;
    for (index, name, column, fits) in [
        (0, "CARS", "ID", true),
        (0, "CARS", "PRICE", false),
        (0, "BOATS", "ID", false),
        (1, "CARS", "ID", false),
    ] {
        let in_exists = fits_in_exists(rt.alloc(), &tables, index, name, column)?;
        assert_eq!(rt; in_exists, fits, "in EXISTS: {index} {name} {column}");
        let in_from = fits_in_from(rt.alloc(), &tables, index, name, column)?;
        assert_eq!(rt; in_from, fits, "in FROM: {index} {name} {column}");
    }
    Ok(())
}
