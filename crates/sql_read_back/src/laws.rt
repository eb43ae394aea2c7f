//! What the texts of queries say to whoever reads them.

ghost use Rattle.std.specs.Prelude.{◌≡◌, ◌≤◌, ◌∷◌, [], length, List, IsUtf8};
ghost use Rattle.prefsql_tables.specs.Table.{Tables};
ghost use Rattle.prefsql_tables.specs.Valid.{IsTableSet};
ghost use Rattle.sql_tree.specs.Fits.{FitsTables};
ghost use Rattle.sql_tree.specs.WellFormed.{IsValid};
ghost use Rattle.sql_tree.specs.declared.tree.SqlQuery as tree;
ghost use Rattle.sql_text.specs.Text.{text_of};
ghost use Rattle.sql_reader.specs.Reads.{ReadsAs};
ghost use Rattle.sql_read_back.specs.Texts.{AreWritable, texts_of};

use prefsql_tables::TableSet;
use sql_tree::SqlQuery;

/// The text of a valid query reads, over tables that the query fits, as this one query and as
/// nothing else. It has at most 268,435,456 bytes, as every text that is read; that it is UTF-8 is
/// what `write_sql` ensures.
pub fn reads_back(query: &SqlQuery, tables: &TableSet)
    requires valid { IsValid query.now }
    requires fits { FitsTables tables.now query.now }
    requires utf8 { IsUtf8 (text_of query.now) }
    requires within { length (text_of query.now) ≤ 268435456 }
    ensures reads { ReadsAs tables.now (text_of query.now) (query.now ∷ []) }
    ensures alone { (queries : List tree.SqlQuery) → ReadsAs tables.now (text_of query.now) queries
        → queries ≡ query.now ∷ [] }
{
    let _ = query;
    tables.keeps_limits();
}

/// The texts of valid queries, one after the other, read, over tables that the queries fit, as
/// these queries in order and as nothing else. They are at most 64, and their texts have at most
/// 268,435,456 bytes, as every script that is read; of no query the text is empty and reads as
/// none.
pub fn texts_read_back()
    ensures reads { (tables : Tables) (queries : List tree.SqlQuery) → IsTableSet tables
        → AreWritable tables queries → ReadsAs tables (texts_of queries) queries }
    ensures alone { (tables : Tables) (queries others : List tree.SqlQuery) → IsTableSet tables
        → AreWritable tables queries → ReadsAs tables (texts_of queries) others → others ≡ queries }
{}
