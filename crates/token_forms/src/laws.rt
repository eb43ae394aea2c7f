//! Laws of the definition.

ghost use Rattle.std.specs.Prelude.{◌≡◌};
ghost use Rattle.prefsql_lexer.specs.declared.token.Token.{Token};
ghost use Rattle.token_forms.specs.Classes.{class, class_of};

/// Tokens that a grammar cannot tell apart are of one kind, and if they are symbols or reserved
/// words, they are the same one.
pub fn same_class_law()
    ensures { (some other : Token) → class some ≡ class other → class_of some ≡ class_of other }
{}
