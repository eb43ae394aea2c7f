//! Laws of the definition.

ghost use Rattle.std.specs.Prelude.{◌≡◌, ◌⊎◌, List, All};
ghost use Rattle.prefsql_lexer.specs.declared.fault.Spot.{Spot};
ghost use Rattle.prefsql_tables.specs.Table.{Tables};
ghost use Rattle.prefsql_tables.specs.Valid.{IsTableSet};
ghost use Rattle.query_meaning.specs.declared.block.Block.{Block};
ghost use Rattle.query_tree.specs.WellMade.{AreWellMade, IsQuery};
ghost use Rattle.query_tree.specs.declared.query.QueryTree.{QueryTree};
ghost use Rattle.query_typing.specs.Obligations.{AllClausesMet};
ghost use Rattle.query_typing.specs.Statements.{obligations};
ghost use Rattle.query_typing.specs.Typing.{AreTyped, IsFirstOfScript, IsTyped};

/// Over one set of tables the trees of a script are typed as at most one list of queries, as no
/// list where they have a fault, and have at most one first fault. Over valid tables trees that are
/// well made have one of both: a statement that keeps all that it owes is typed as a query.
pub fn one_answer_law()
    ensures queries { (tables : Tables) (trees : List QueryTree) (some other : List Block)
        → AreTyped tables trees some → AreTyped tables trees other → some ≡ other }
    ensures either { (tables : Tables) (trees : List QueryTree) (queries : List Block) (spot : Spot)
        → AreTyped tables trees queries → IsFirstOfScript tables trees spot → ⊥ }
    ensures fault { (tables : Tables) (trees : List QueryTree) (some other : Spot)
        → IsFirstOfScript tables trees some → IsFirstOfScript tables trees other → some ≡ other }
    ensures statement { (tables : Tables) (tree : QueryTree) → IsTableSet tables → IsQuery tree
        → AllClausesMet (obligations tables tree) → (query : Block) × IsTyped tables tree query }
    ensures script { (tables : Tables) (trees : List QueryTree) → IsTableSet tables
        → AreWellMade trees → All (λ tree. AllClausesMet (obligations tables tree)) trees
        → (queries : List Block) × AreTyped tables trees queries }
    ensures answer { (tables : Tables) (trees : List QueryTree) → IsTableSet tables
        → AreWellMade trees
        → ((queries : List Block) × AreTyped tables trees queries)
        ⊎ ((spot : Spot) × IsFirstOfScript tables trees spot) }
{}
