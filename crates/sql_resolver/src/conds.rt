//! Conditions by what is found of their parts.

ghost use Rattle.std.specs.Prelude.{◌≡◌, IfOk, Some, map};
ghost use Rattle.sql_tree.specs.declared.tree.SqlCond as sql;
ghost use Rattle.sql_resolver.specs.Found as found;
ghost use Rattle.sql_resolver.specs.Outcomes.{formed};
ghost use Rattle.sql_resolver.specs.Owed.{differ};

use crate::fault::{Fault, all_of, also, paired};
use crate::found::{FoundQuery, FoundScalar};
use prefsql_lexer::Spot;
use prefsql_values::{Boxed, CompareOp, Domain, List, Memory};
use sql_tree::{SqlCond, SqlScalar};
use std::alloc::Global;

const OTHER_DOMAIN: u16 = 305;

/// Whether the domains are known and differ.
fn differ(a: Option<Domain>, b: Option<Domain>) -> bool
    ensures { result ≡ differ a b }
{
    match a {
        None => false,
        Some(Domain::Integer) => match b {
            Some(Domain::Chars) => true,
            _ => false,
        },
        Some(Domain::Chars) => match b {
            Some(Domain::Integer) => true,
            _ => false,
        },
    }
}

/// The fault of a scalar that has another domain.
pub(crate) fn unlike(domain: Option<Domain>, b: &FoundScalar) -> Option<Fault>
    ensures { result ≡ found.unlike domain b.now }
{
    if differ(domain, b.domain) {
        Some(Fault {
            at: b.at,
            spot: Spot {
                code: OTHER_DOMAIN,
                at: b.at,
            },
        })
    } else {
        None
    }
}

/// The scalar, which is to have the domain.
fn alike(domain: Option<Domain>, b: FoundScalar) -> Result<SqlScalar, Fault>
    ensures { result ≡ found.alike domain b }
{
    let fault = unlike(domain, &b);
    also(b.tree, fault)
}

/// A comparison.
pub(crate) fn compared(op: CompareOp, a: FoundScalar, b: FoundScalar) -> Result<SqlCond, Fault>
    ensures { result ≡ found.compared op a b }
{
    let (a, b) = paired(a.tree, alike(a.domain, b))?;
    Ok(SqlCond::Compare(op, a, b))
}

/// A scalar between two others.
pub(crate) fn between(
    negated: bool,
    a: FoundScalar,
    low: FoundScalar,
    high: FoundScalar,
) -> Result<SqlCond, Fault>
    ensures { result ≡ found.between negated a low high }
{
    let below = unlike(a.domain, &low);
    let above = unlike(a.domain, &high);
    let high = also(also(high.tree, below), above);
    let (a, bounds) = paired(a.tree, paired(low.tree, high))?;
    let (low, high) = bounds;
    Ok(SqlCond::Between(negated, a, low, high))
}

/// The scalars, which are to have the domain.
fn all_alike(
    alloc: Global,
    domain: Option<Domain>,
    list: Vec<FoundScalar>,
) -> Result<Vec<Result<SqlScalar, Fault>>, Memory>
    ensures { IfOk result (λ alike. alike.items ≡ map (found.alike domain) list.items) }
{
    let mut found = Vec::new(alloc);
    for b in list {
        found.push(alike(domain, b))?;
    }
    Ok(found)
}

/// A scalar in a list.
pub(crate) fn one_of(
    alloc: Global,
    negated: bool,
    a: FoundScalar,
    list: Vec<FoundScalar>,
) -> Result<Result<SqlCond, Fault>, Memory>
    ensures { IfOk result (λ cond. cond ≡ found.one_of negated a list.items) }
{
    let list = all_of(alloc, all_alike(alloc, a.domain, list)?)?;
    match paired(a.tree, list) {
        Ok((a, list)) => Ok(Ok(SqlCond::OneOf(negated, a, list))),
        Err(fault) => Ok(Err(fault)),
    }
}

/// Whether the query has a row.
pub(crate) fn exists(alloc: Global, query: FoundQuery) -> Result<Result<SqlCond, Fault>, Memory>
    ensures { IfOk result (λ cond. cond ≡ found.exists query) }
{
    let at = query.at;
    match query.selected {
        Ok(selected) => Ok(Ok(SqlCond::Exists(Boxed::new(alloc, selected.tree)?))),
        Err(spot) => Ok(Err(Fault { at, spot })),
    }
}

/// Parts that must all hold.
pub(crate) fn conjunction(parts: Result<List<SqlCond>, Fault>) -> Result<SqlCond, Fault>
    ensures { result ≡ formed sql.And parts }
{
    Ok(SqlCond::And(parts?))
}

/// Parts of which one must hold.
pub(crate) fn disjunction(parts: Result<List<SqlCond>, Fault>) -> Result<SqlCond, Fault>
    ensures { result ≡ formed sql.Or parts }
{
    Ok(SqlCond::Or(parts?))
}

/// A condition that must not hold.
pub(crate) fn negation(
    alloc: Global,
    part: Result<SqlCond, Fault>,
) -> Result<Result<SqlCond, Fault>, Memory>
    ensures { IfOk result (λ cond. cond ≡ formed sql.Not part) }
{
    match part {
        Ok(part) => Ok(Ok(SqlCond::Not(Boxed::new(alloc, part)?))),
        Err(fault) => Ok(Err(fault)),
    }
}

/// A test for NULL.
pub(crate) fn is_null(negated: bool, a: FoundScalar) -> Result<SqlCond, Fault>
    ensures { result ≡ formed (sql.IsNull negated) a.tree }
{
    Ok(SqlCond::IsNull(negated, a.tree?))
}

/// The condition of a WHERE that is written.
pub(crate) fn some_cond(part: Result<SqlCond, Fault>) -> Result<Option<SqlCond>, Fault>
    ensures { result ≡ formed Some part }
{
    Ok(Some(part?))
}
