//! The words and symbols of the text that are written by a choice.

ghost use Rattle.std.specs.Prelude.{◌≡◌, ◌++◌, ◌∷◌, [], OnOk, if◌then◌else◌};
ghost use Rattle.std.specs.String.{string_bytes};
ghost use Rattle.prefsql_lexer.specs.Tokens.{symbol_bytes};
ghost use Rattle.prefsql_values.specs.Nesting as nesting;
ghost use Rattle.sql_text.specs.Levels.{standing_of};
ghost use Rattle.sql_text.specs.Spelling as spelling;
ghost use Rattle.sql_text.specs.Text as spec;

use crate::standing::Standing;
use prefsql_values::{CompareOp, Memory};

/// A comparison operator.
pub(crate) fn op_text(op: CompareOp) -> &'static str
    ensures { result.now ≡ symbol_bytes (spec.op_symbol op) }
{
    match op {
        CompareOp::Eq => "=",
        CompareOp::Ne => "<>",
        CompareOp::Lt => "<",
        CompareOp::Le => "<=",
        CompareOp::Gt => ">",
        CompareOp::Ge => ">=",
    }
}

/// The sign of a term after the first, a minus where the flag is set.
pub(crate) fn sign_text(flag: bool) -> &'static str
    ensures { result.now ≡ spelling.sign_text flag }
{
    if flag { " - " } else { " + " }
}

/// BETWEEN, with NOT where the flag is set.
pub(crate) fn between_text(flag: bool) -> &'static str
    ensures { result.now ≡ spelling.between_text flag }
{
    if flag { " NOT BETWEEN " } else { " BETWEEN " }
}

/// IN with its opening parenthesis, with NOT where the flag is set.
pub(crate) fn in_text(flag: bool) -> &'static str
    ensures { result.now ≡ spelling.in_text flag }
{
    if flag { " NOT IN (" } else { " IN (" }
}

/// IS NULL, with NOT where the flag is set.
pub(crate) fn null_text(flag: bool) -> &'static str
    ensures { result.now ≡ spelling.null_text flag }
{
    if flag { " IS NOT NULL" } else { " IS NULL" }
}

/// SELECT, with DISTINCT where the flag is set.
pub(crate) fn select_text(flag: bool) -> &'static str
    ensures { result.now ≡ spelling.select_text flag }
{
    if flag { "SELECT DISTINCT " } else { "SELECT " }
}

/// Whether an AND stands in parentheses there.
pub(crate) fn wraps_and(standing: Standing) -> bool
    ensures { result ≡ nesting.wraps_and (standing_of standing) }
{
    match standing {
        Standing::Alone | Standing::InOr => false,
        Standing::InAnd | Standing::AfterNot => true,
    }
}

/// Whether an OR stands in parentheses there.
pub(crate) fn wraps_or(standing: Standing) -> bool
    ensures { result ≡ nesting.wraps_or (standing_of standing) }
{
    match standing {
        Standing::Alone => false,
        Standing::InAnd | Standing::InOr | Standing::AfterNot => true,
    }
}

/// Whether a NOT stands in parentheses there.
pub(crate) fn wraps_not(standing: Standing) -> bool
    ensures { result ≡ nesting.wraps_not (standing_of standing) }
{
    match standing {
        Standing::Alone | Standing::InAnd | Standing::InOr => false,
        Standing::AfterNot => true,
    }
}

/// Writes an opening parenthesis, where the flag is set.
pub(crate) fn open_if(out: &mut String, wraps: bool) -> Result<(), Memory>
    ensures { OnOk result
        (string_bytes out.new ≡ string_bytes out.old ++ (if wraps then 40 ∷ [] else [])) }
{
    if wraps {
        out.push_str("(")?;
    }
    Ok(())
}

/// Writes a closing parenthesis, where the flag is set.
pub(crate) fn close_if(out: &mut String, wraps: bool) -> Result<(), Memory>
    ensures { OnOk result
        (string_bytes out.new ≡ string_bytes out.old ++ (if wraps then 41 ∷ [] else [])) }
{
    if wraps {
        out.push_str(")")?;
    }
    Ok(())
}
