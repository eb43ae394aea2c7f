//! Laws of the definition.

ghost use Rattle.std.specs.Prelude.{◌≡◌, ◌⊎◌, ℕ, List};
ghost use Rattle.prefsql_lexer.specs.declared.fault.Spot.{Spot};
ghost use Rattle.prefsql_tables.specs.Table.{Tables};
ghost use Rattle.sql_tree.specs.declared.tree.SqlQuery.{SqlQuery};
ghost use Rattle.sql_reader.specs.Reads.{ReadsAs, HasFirstFault};

/// Over one set of tables a text reads as at most one list of queries, as no list where it has a
/// fault, and has at most one first fault. Each text has one of both.
pub fn one_reading_law()
    ensures queries { (tables : Tables) (text : List ℕ) (some other : List SqlQuery)
        → ReadsAs tables text some → ReadsAs tables text other → some ≡ other }
    ensures either { (tables : Tables) (text : List ℕ) (queries : List SqlQuery) (spot : Spot)
        → ReadsAs tables text queries → HasFirstFault tables text spot → ⊥ }
    ensures fault { (tables : Tables) (text : List ℕ) (some other : Spot)
        → HasFirstFault tables text some → HasFirstFault tables text other → some ≡ other }
    ensures answer { (tables : Tables) (text : List ℕ)
        → ((queries : List SqlQuery) × ReadsAs tables text queries)
        ⊎ ((spot : Spot) × HasFirstFault tables text spot) }
{}
