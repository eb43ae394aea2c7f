//! Columns and literals.

ghost use Rattle.std.specs.Prelude.{◌≡◌, Err, IfOk, MatchOption, None, Ok, Some};
ghost use Rattle.std.specs.Option.{option_map};
ghost use Rattle.sql_tree.specs.declared.tree.SqlScalar.{Column};
ghost use Rattle.sql_resolver.specs.Found.{capped, found_scalar};
ghost use Rattle.sql_resolver.specs.NamesMeant.{places_of};
ghost use Rattle.sql_resolver.specs.Owed.{fault};
ghost use Rattle.sql_resolver.specs.Reading.{column_reading, literal_reading};
ghost use Rattle.sql_resolver.specs.Scope as scope;

use crate::fault::Fault;
use crate::found::FoundScalar;
use crate::meaning::Meaning;
use crate::scalars::capped;
use crate::scope::{Level, ScopeColumn, column_part, meaning_of};
use prefsql_lexer::Spot;
use prefsql_values::{Domain, Memory, Text, Value};
use query_tree::{LiteralTree, NameTree};
use sql_tree::{SqlPlace, SqlScalar};
use std::alloc::Global;

const UNKNOWN_COLUMN: u16 = 303;

const AMBIGUOUS_COLUMN: u16 = 304;

/// The bound of a number of at most 18 digits.
pub(crate) const SHORT_BOUND: u128 = 999_999_999_999_999_999;

/// The column of a place, if it is there.
fn column_at(levels: &[Level], place: SqlPlace) -> Option<&ScopeColumn>
    ensures { MatchOption result
        (scope.column_at levels.now place ≡ scope.no_column)
        (λ column. scope.column_at levels.now place ≡ column.now) }
{
    let level = levels.get(place.up as usize)?;
    let item = level.items().get(place.item as usize)?;
    item.columns.as_slice().get(place.column as usize)
}

/// A column whose name has no single meaning.
fn no_column(name: &NameTree, part: Text, code: u16) -> FoundScalar
    ensures { result ≡ record {
      at = name.now.at;
      domain = None;
      bound = None;
      own_name = Some part;
      tree = Err (fault code name.now.at);
    } }
{
    let fault = Fault {
        at: name.at,
        spot: Spot { code, at: name.at },
    };
    FoundScalar {
        at: name.at,
        domain: None,
        bound: None,
        own_name: Some(part),
        tree: Err(fault),
    }
}

/// A column by its place.
fn column_of(name: &NameTree, part: Text, levels: &[Level], place: SqlPlace) -> FoundScalar
    ensures { result ≡ record {
      at = name.now.at;
      domain = (scope.column_at levels.now place).domain;
      bound = option_map capped (scope.column_at levels.now place).bound;
      own_name = Some part;
      tree = Ok (Column place);
    } }
{
    match column_at(levels, place) {
        Some(column) => FoundScalar {
            at: name.at,
            domain: column.domain,
            bound: capped(column.bound),
            own_name: Some(part),
            tree: Ok(SqlScalar::Column(place)),
        },
        None => FoundScalar {
            at: name.at,
            domain: None,
            bound: None,
            own_name: Some(part),
            tree: Ok(SqlScalar::Column(place)),
        },
    }
}

/// What the name means.
pub(crate) fn column(
    alloc: Global,
    name: &NameTree,
    levels: &[Level],
) -> Result<FoundScalar, Memory>
    ensures { IfOk result (λ found. found ≡ found_scalar
        (column_reading name.now levels.now
        (places_of name.now.first name.now.second 0 (scope.names_in levels.now)))) }
{
    let part = Text::of(alloc, column_part(name))?;
    let found = meaning_of(alloc, name, levels)?;
    match found {
        None => Ok(no_column(name, part, UNKNOWN_COLUMN)),
        Some(Meaning::One(place)) => Ok(column_of(name, part, levels, place)),
        Some(Meaning::Several) => Ok(no_column(name, part, AMBIGUOUS_COLUMN)),
    }
}

/// The number in a tree, or want of room where it is too large for one.
fn narrow(n: i128) -> Result<i64, Memory>
    ensures { IfOk result (λ narrow. narrow ≡ n) }
{
    if n >= i64::MIN as i128 && n <= i64::MAX as i128 {
        Ok(n as i64)
    } else {
        Err(Memory)
    }
}

/// A literal without a column's name.
fn literal_of(at: u32, domain: Option<Domain>, bound: Option<u128>, tree: SqlScalar) -> FoundScalar
    ensures { result ≡ record {
      at = at;
      domain = domain;
      bound = bound;
      own_name = None;
      tree = Ok tree;
    } }
{
    FoundScalar {
        at,
        domain,
        bound,
        own_name: None,
        tree: Ok(tree),
    }
}

/// A literal.
pub(crate) fn literal(alloc: Global, literal: &LiteralTree) -> Result<FoundScalar, Memory>
    ensures { IfOk result (λ found. found
        ≡ found_scalar (literal_reading literal.now.value literal.now.at)) }
{
    let at = literal.at;
    match &literal.value {
        Value::Num(n) => {
            let number = SqlScalar::Number(narrow(*n)?);
            Ok(literal_of(at, Some(Domain::Integer), Some(SHORT_BOUND), number))
        }
        Value::Str(text) => {
            let chars = SqlScalar::Chars(text.copy(alloc)?);
            Ok(literal_of(at, Some(Domain::Chars), Some(0), chars))
        }
        Value::Null => Ok(literal_of(at, None, None, SqlScalar::Number(0))),
    }
}
