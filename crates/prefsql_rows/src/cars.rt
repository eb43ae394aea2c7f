//! The cars and the dealers, and the queries of scripts over them.
ghost use Rattle.std.specs.Prelude.{All, IfOk};
ghost use Rattle.query_meaning.specs.BlockFits.{FitsTables};
ghost use Rattle.query_meaning.specs.Valid.{IsValidBlock};

use prefsql_lexer::tokens;
use prefsql_tables::TableSet;
use prefsql_values::{List, Text};
use query_meaning::Block;
use query_parser::parse_script;
use query_typing::type_script;
use std::alloc::Global;
use std::test::Fail;
use table_csv::read_table;

const CARS: &str =
    "id INTEGER NOT NULL,color TEXT NOT NULL,price INTEGER NOT NULL,power INTEGER NOT NULL,dealer TEXT\n1,red,40000,200,north\n2,blue,38000,180,north\n3,red,42000,220,south\n4,grey,38000,180,\n5,blue,50000,150,\n";

const DEALERS: &str = "name TEXT,city TEXT NOT NULL\nnorth,Ulm\nsouth,Bonn\n";

/// The tables CARS and DEALERS.
pub(super) fn car_tables(alloc: Global) -> Result<TableSet, Fail> {
    let mut tables = TableSet::new(alloc);
    tables.add_table(
        Text::of(alloc, "CARS")?,
        read_table(alloc, CARS.as_bytes())?,
    )?;
    tables.add_table(
        Text::of(alloc, "DEALERS")?,
        read_table(alloc, DEALERS.as_bytes())?,
    )?;
    Ok(tables)
}

/// The queries of a script over the tables.
pub(super) fn queries(alloc: Global, script: &str, tables: &TableSet) -> Result<List<Block>, Fail>
    ensures valid { IfOk result (All IsValidBlock) }
    ensures fits { IfOk result (All (FitsTables tables.now)) }
{
    if script.len() > 1_048_576 {
        return Err("too long".into());
    }
    let found = tokens(alloc, script.as_bytes(), 64)?;
    let trees = parse_script(alloc, found.as_slice(), script.len() as u32)?;
    Ok(type_script(alloc, trees.as_slice(), tables)?)
}
