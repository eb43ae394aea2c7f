//! What the written script says over other tables.

ghost use Rattle.std.specs.Prelude.{◌≡◌, List, map};
ghost use Rattle.prefsql_lexer.specs.declared.fault.Spot.{Spot};
ghost use Rattle.prefsql_tables.specs.Table.{Tables};
ghost use Rattle.query_meaning.specs.declared.block.Block.{Block};
ghost use Rattle.sql_tree.specs.declared.tree.SqlQuery.{SqlQuery};
ghost use Rattle.sql_reader.specs.Reads.{ReadsAs, HasFirstFault};
ghost use Rattle.written_script.specs.WrittenScript.{AreWritten, IsOther, answers_of_blocks, answers_of_queries, script_of, written};

/// The law of the written script. Let blocks be valid and fit a set of tables. Over each valid set
/// of tables with the same names in the same order and equal columns, their script in SQL reads as
/// the queries that they are written as, and has no fault; and whatever it reads as answers, query
/// by query, what the blocks answer.
pub fn written_script_law()
    ensures reads { (tables others : Tables) (blocks : List Block) → AreWritten tables blocks
        → IsOther tables others → ReadsAs others (script_of blocks) (written blocks) }
    ensures no_fault { (tables others : Tables) (blocks : List Block) (spot : Spot)
        → AreWritten tables blocks → IsOther tables others
        → HasFirstFault others (script_of blocks) spot → ⊥ }
    ensures answers { (tables others : Tables) (blocks : List Block) (queries : List SqlQuery)
        → AreWritten tables blocks → IsOther tables others
        → ReadsAs others (script_of blocks) queries
        → answers_of_queries others queries ≡ answers_of_blocks others blocks }
{}
