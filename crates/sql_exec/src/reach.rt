//! Of how many of the first FROM items of a query a part of it speaks.
ghost use Rattle.std.specs.Prelude.{◌≡◌, ◌≤◌, map};
ghost use Rattle.std.specs.Option.{option_map};
ghost use Rattle.prefsql_tables.specs.Table.{Tables};
ghost use Rattle.sql_tree.specs.Meaning.{else_value, place_value};
ghost use Rattle.sql_exec.specs.Preparing.{scopes_kept};
ghost use Rattle.sql_exec.specs.Reach.{SpeaksOf};
ghost use Rattle.sql_exec.specs.Wrapping.{term_value, truth_in, value_in, when_value};

use prefsql_values::Boxed;
use sql_tree::{SqlCond, SqlPlace, SqlQuery, SqlScalar, SqlWhen, SumTerm};

/// Of how many of the first items a column speaks, of those of the query that stands `depth`
/// queries further out.
pub(crate) fn place_reach(place: SqlPlace, depth: u32) -> usize
    ensures { SpeaksOf depth result (λ scopes. place_value scopes place) }
{
    if place.up == depth {
        place.item as usize + 1
    } else {
        0
    }
}

/// The greater of two numbers.
fn greater(a: usize, b: usize) -> usize
    ensures first { a ≤ result }
    ensures second { b ≤ result }
{
    if a < b { b } else { a }
}

/// Of how many of the first items a condition speaks.
#[cycle(reach)]
pub(crate) fn cond_reach(cond: &SqlCond, depth: u32) -> usize
    ensures { (tables : Tables) → SpeaksOf depth result (truth_in tables cond.now) }
{
    match cond {
        SqlCond::And(parts) => conds_reach(parts.as_slice(), depth),
        SqlCond::Or(parts) => conds_reach(parts.as_slice(), depth),
        SqlCond::Not(part) => cond_reach(part.get(), depth),
        SqlCond::Compare(_, a, b) => greater(scalar_reach(a, depth), scalar_reach(b, depth)),
        SqlCond::Between(_, a, low, high) => {
            let bounds = greater(scalar_reach(low, depth), scalar_reach(high, depth));
            greater(scalar_reach(a, depth), bounds)
        }
        SqlCond::OneOf(_, a, list) => {
            greater(
                scalar_reach(a, depth),
                scalars_reach(list.as_slice(), depth),
            )
        }
        SqlCond::IsNull(_, a) => scalar_reach(a, depth),
        SqlCond::Exists(query) => query_reach(query.get(), depth),
    }
}

#[cycle(reach)]
fn conds_reach(conds: &[SqlCond], depth: u32) -> usize
    ensures { (tables : Tables) → SpeaksOf depth result
        (λ scopes. map (λ cond. truth_in tables cond scopes) conds.now) }
{
    let mut reach = 0;
    for cond in conds {
        reach = greater(reach, cond_reach(cond, depth));
    }
    reach
}

/// Of how many of the first items a scalar speaks.
#[cycle(reach)]
pub(crate) fn scalar_reach(scalar: &SqlScalar, depth: u32) -> usize
    ensures { (tables : Tables) → SpeaksOf depth result (value_in tables scalar.now) }
{
    match scalar {
        SqlScalar::Column(place) => place_reach(*place, depth),
        SqlScalar::Number(_) => 0,
        SqlScalar::Chars(_) => 0,
        SqlScalar::Sum(terms) => terms_reach(terms.as_slice(), depth),
        SqlScalar::Case(whens, last) => {
            greater(
                whens_reach(whens.as_slice(), depth),
                else_reach(last, depth),
            )
        }
    }
}

#[cycle(reach)]
fn scalars_reach(scalars: &[SqlScalar], depth: u32) -> usize
    ensures { (tables : Tables) → SpeaksOf depth result
        (λ scopes. map (λ scalar. value_in tables scalar scopes) scalars.now) }
{
    let mut reach = 0;
    for scalar in scalars {
        reach = greater(reach, scalar_reach(scalar, depth));
    }
    reach
}

#[cycle(reach)]
fn terms_reach(terms: &[SumTerm], depth: u32) -> usize
    ensures { (tables : Tables) → SpeaksOf depth result
        (λ scopes. map (λ term. term_value tables term scopes) terms.now) }
{
    let mut reach = 0;
    for term in terms {
        reach = greater(reach, term_reach(term, depth));
    }
    reach
}

#[cycle(reach)]
fn term_reach(term: &SumTerm, depth: u32) -> usize
    ensures { (tables : Tables) → SpeaksOf depth result (term_value tables term.now) }
{
    scalar_reach(&term.scalar, depth)
}

#[cycle(reach)]
fn whens_reach(whens: &[SqlWhen], depth: u32) -> usize
    ensures { (tables : Tables) → SpeaksOf depth result
        (λ scopes. map (λ w. when_value tables w scopes) whens.now) }
{
    let mut reach = 0;
    for when in whens {
        reach = greater(reach, when_reach(when, depth));
    }
    reach
}

#[cycle(reach)]
fn when_reach(when: &SqlWhen, depth: u32) -> usize
    ensures { (tables : Tables) → SpeaksOf depth result (when_value tables when.now) }
{
    greater(
        cond_reach(&when.cond, depth),
        scalar_reach(&when.value, depth),
    )
}

#[cycle(reach)]
fn else_reach(last: &Option<Boxed<SqlScalar>>, depth: u32) -> usize
    ensures { (tables : Tables) → SpeaksOf depth result
        (else_value (option_map (value_in tables) last.now)) }
{
    match last {
        Some(scalar) => scalar_reach(scalar.get(), depth),
        None => 0,
    }
}

/// Of how many of the first items a query speaks that stands among them. It is its WHERE that does,
/// since its FROM items see no scope.
#[cycle(reach)]
fn query_reach(query: &SqlQuery, depth: u32) -> usize
    ensures { (tables : Tables) → SpeaksOf depth result (scopes_kept tables query.now) }
{
    match &query.filter {
        Some(cond) => cond_reach(cond, depth.saturating_add(1)),
        None => 0,
    }
}
