//! Scripts.

ghost use Rattle.std.specs.Prelude.{◌≡◌, ◌≤◌, IfOk, IfErr, length};
ghost use Rattle.prefsql_lexer.specs.Bounds.{AreTokensOf};
ghost use Rattle.token_forms.specs.Place.{SaysCode, place_of};
ghost use Rattle.query_grammar.specs.Scripts.{IsScript};
ghost use Rattle.query_parser.specs.Script.{SaysFault};
ghost use Rattle.query_tree.specs.WellMade.{AreWellMade};

use crate::fault::ParseFault;
use prefsql_lexer::{Keyword, Spot, Token};
use prefsql_values::List;
use query_reader::Parser;
use query_tree::QueryTree;
use std::alloc::Global;
use token_forms::{Cursor, Stop};

/// How deep parentheses may nest.
const MAX_NESTING: usize = 64;

const UNEXPECTED_TOKEN: u16 = 201;

const UNEXPECTED_END: u16 = 202;

const TOO_MANY_STATEMENTS: u16 = 203;

/// The trees of a script, one for each statement, or its first grammar fault. `end` is the length
/// of the script in bytes.
pub fn parse_script(
    alloc: Global,
    tokens: &[Token],
    end: u32,
) -> Result<List<QueryTree>, ParseFault>
    requires { AreTokensOf 64 end tokens.now }
    ensures script { IfOk result (IsScript tokens.now) }
    ensures well_made { IfOk result AreWellMade }
    ensures few { IfOk result (λ trees. length trees ≤ length tokens.now) }
    ensures fault { IfErr result (SaysFault tokens.now end) }
{
    let parser = Parser {
        alloc,
        depth: MAX_NESTING,
    };
    let mut cursor = Cursor::new(alloc, tokens);
    match parser.script(&mut cursor) {
        Err(Stop::Memory) => Err(ParseFault::Memory),
        Err(Stop::Fault) => Err(ParseFault::Bad(spot(&cursor, end, false))),
        Ok((trees, is_full)) => {
            if cursor.is_at_end() {
                Ok(trees)
            } else {
                Err(ParseFault::Bad(spot(&cursor, end, is_full)))
            }
        }
    }
}

/// The fault at the next token. `is_full` says that no more statements may follow.
fn spot(cursor: &Cursor<'_>, end: u32, is_full: bool) -> Spot
    ensures at { result.at ≡ place_of cursor.now end }
    ensures code { SaysCode is_full cursor.now result.code }
{
    let code = if cursor.is_at_end() {
        UNEXPECTED_END
    } else if is_full && cursor.at_word(Keyword::Select) {
        TOO_MANY_STATEMENTS
    } else {
        UNEXPECTED_TOKEN
    };
    Spot {
        code,
        at: cursor.place(end),
    }
}
