//! Laws of the definition.

ghost use Rattle.std.specs.Prelude.{◌≡◌, ◌⊎◌, ℕ, List};
ghost use Rattle.prefsql_lexer.specs.Bounds.{NestWithin};
ghost use Rattle.prefsql_lexer.specs.declared.fault.Spot.{Spot};
ghost use Rattle.prefsql_lexer.specs.declared.token.Token.{Token};
ghost use Rattle.query_grammar.specs.Scripts.{IsFault, IsScript};
ghost use Rattle.query_tree.specs.declared.query.QueryTree.{QueryTree};

/// One list of tokens has at most one list of trees.
pub fn one_list_law()
    ensures { (tokens : List Token) (some other : List QueryTree) → IsScript tokens some
        → IsScript tokens other → some ≡ other }
{}

/// Tokens are not both a script and faulty, and have at most one first fault. Where they nest
/// within the limit they have one of both.
pub fn one_answer_law()
    ensures either { (tokens : List Token) (end : ℕ) (trees : List QueryTree) (spot : Spot)
        → IsScript tokens trees → IsFault tokens end spot → ⊥ }
    ensures fault { (tokens : List Token) (end : ℕ) (some other : Spot) → IsFault tokens end some
        → IsFault tokens end other → some ≡ other }
    ensures answer { (tokens : List Token) (end : ℕ) → NestWithin 64 0 tokens
        → ((trees : List QueryTree) × IsScript tokens trees)
        ⊎ ((spot : Spot) × IsFault tokens end spot) }
{}
