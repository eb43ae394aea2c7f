//! What is true of every query that is read.

ghost use Rattle.std.specs.Prelude.{◌≤◌, ℕ, List, length, All};
ghost use Rattle.prefsql_tables.specs.Table.{Tables};
ghost use Rattle.prefsql_tables.specs.Valid.{IsTableSet};
ghost use Rattle.sql_tree.specs.Fits.{FitsTables};
ghost use Rattle.sql_tree.specs.WellFormed.{IsWellFormed};
ghost use Rattle.sql_tree.specs.declared.tree.SqlQuery as tree;
ghost use Rattle.sql_reader.specs.Reads.{ReadsAs};

/// The law of the queries that an SQL text reads as. Over valid tables they are well formed, where
/// the text has at most 268,435,456 bytes, as every script that is read. Over any set of tables
/// they fit it: each table that they name, at every depth, stands at its position, with its name
/// and its columns.
pub fn read_queries_law()
    ensures formed { (tables : Tables) (text : List ℕ) (queries : List tree.SqlQuery)
        → IsTableSet tables → length text ≤ 268435456
        → ReadsAs tables text queries → All IsWellFormed queries }
    ensures fit { (tables : Tables) (text : List ℕ) (queries : List tree.SqlQuery)
        → ReadsAs tables text queries → All (FitsTables tables) queries }
{}
