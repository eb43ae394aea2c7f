//! What tables with the same names and columns have in common.

ghost use Rattle.std.specs.Prelude.{List};
ghost use Rattle.prefsql_lexer.specs.declared.fault.Spot.{Spot};
ghost use Rattle.prefsql_tables.specs.Table.{Tables};
ghost use Rattle.prefsql_tables.specs.Valid.{IsAlike};
ghost use Rattle.query_meaning.specs.BlockFits.{FitsTables};
ghost use Rattle.query_meaning.specs.declared.block.Block.{Block};
ghost use Rattle.query_tree.specs.declared.query.QueryTree.{QueryTree};
ghost use Rattle.query_typing.specs.Typing.{AreTyped, IsFirstOfScript};

/// The law of alike tables: names in the same order and equal columns are all that fitting and
/// typing ask of tables. A block fits both or none, and the statements of a script have the same
/// blocks over both, or the same first fault.
pub fn alike_tables_law()
    ensures fits { (tables others : Tables) (block : Block) → IsAlike tables others
        → FitsTables tables block → FitsTables others block }
    ensures blocks { (tables others : Tables) (queries : List QueryTree) (blocks : List Block)
        → IsAlike tables others → AreTyped tables queries blocks → AreTyped others queries blocks }
    ensures fault { (tables others : Tables) (queries : List QueryTree) (spot : Spot)
        → IsAlike tables others → IsFirstOfScript tables queries spot
        → IsFirstOfScript others queries spot }
{}
