//! Sums and choices by what is found of their parts.

ghost use Rattle.std.specs.Prelude.{◌≡◌, ◌+◌, IfOk, Some, map, max};
ghost use Rattle.std.specs.Option.{option_map};
ghost use Rattle.sql_resolver.specs.Found as found;
ghost use Rattle.sql_resolver.specs.Owed.{both_bounds, is_text};
ghost use Rattle.sql_tree.specs.declared.tree.SqlScalar.{Case};
ghost use Rattle.sql_resolver.specs.Outcomes.{formed, paired};

use crate::conds::unlike;
use crate::fault::{Fault, all_of, also, earlier_if, paired};
use crate::found::{FoundScalar, FoundTerm, FoundWhen};
use prefsql_lexer::Spot;
use prefsql_values::{Boxed, Domain, List, Memory};
use sql_tree::{SqlScalar, SqlWhen, SumTerm};
use std::alloc::Global;

const TEXT_IN_SUM: u16 = 305;

const TOO_LARGE: u16 = 401;

/// The greatest bound that a sum may have.
const MAX_BOUND: u128 = 1_000_000_000_000_000_000_000_000_000_000_000_000;

/// The bound, at most one above the greatest.
pub(crate) fn capped(bound: Option<u128>) -> Option<u128>
    ensures { result ≡ option_map found.capped bound }
{
    match bound {
        Some(n) if n > MAX_BOUND => Some(MAX_BOUND + 1),
        _ => bound,
    }
}

/// The sum of two bounds, at most one above the greatest.
fn added(a: Option<u128>, b: Option<u128>) -> Option<u128>
    ensures { result ≡ found.added a b }
{
    match a {
        None => None,
        Some(m) => match b {
            None => None,
            Some(n) => Some(capped_sum(m, n)),
        },
    }
}

/// The sum, at most one above the greatest bound.
fn capped_sum(m: u128, n: u128) -> u128
    ensures { result ≡ found.capped (m + n) }
{
    let room = MAX_BOUND + 1;
    if m >= room || n >= room - m {
        room
    } else {
        m + n
    }
}

/// The bound of a sum.
#[tactic(auto, using(crate::proofs::BoundLaws::sums))]
fn sum_bound(terms: &[FoundTerm]) -> Option<u128>
    ensures { result ≡ found.sum_bound terms.now }
{
    let mut bound = Some(0);
    for term in terms {
        bound = added(bound, term.scalar.bound);
    }
    bound
}

/// The fault of the first term at which the bounds so far exceed the greatest one.
fn above(terms: &[FoundTerm]) -> Option<Fault>
    ensures { result ≡ found.above 0 terms.now }
{
    let mut total = 0;
    for term in terms {
        let bound = term.scalar.bound?;
        if bound > MAX_BOUND - total {
            return Some(Fault {
                at: term.scalar.at,
                spot: Spot {
                    code: TOO_LARGE,
                    at: term.scalar.at,
                },
            });
        }
        total += bound;
    }
    None
}

/// The fault of a term that is a text.
fn text_fault(scalar: &FoundScalar) -> Option<Fault>
    ensures { result ≡ found.text_fault scalar.now }
{
    match scalar.domain {
        Some(Domain::Chars) => Some(Fault {
            at: scalar.at,
            spot: Spot {
                code: TEXT_IN_SUM,
                at: scalar.at,
            },
        }),
        _ => None,
    }
}

/// A term, which is to be a number.
fn term_tree(term: FoundTerm) -> Result<SumTerm, Fault>
    ensures { result ≡ found.term_tree term }
{
    let FoundTerm { minus, scalar } = term;
    let fault = text_fault(&scalar);
    let scalar = also(scalar.tree, fault)?;
    Ok(SumTerm { minus, scalar })
}

/// The terms, which are to be numbers.
fn term_trees(alloc: Global, terms: Vec<FoundTerm>) -> Result<Vec<Result<SumTerm, Fault>>, Memory>
    ensures { IfOk result (λ trees. trees.items ≡ map found.term_tree terms.items) }
{
    let mut trees = Vec::new(alloc);
    for term in terms {
        trees.push(term_tree(term))?;
    }
    Ok(trees)
}

/// The place of the first term.
fn place_of_terms(terms: &[FoundTerm]) -> u32
    ensures { result ≡ found.place_of_terms terms.now }
{
    match terms.first() {
        None => 0,
        Some(term) => term.scalar.at,
    }
}

/// A sum without its terms that exceed the greatest bound.
fn sum_tree(terms: Result<List<SumTerm>, Fault>, above: Option<Fault>) -> Result<SqlScalar, Fault>
    ensures { result ≡ found.sum_tree terms above }
{
    match terms {
        Ok(terms) => also(Ok(SqlScalar::Sum(terms)), above),
        Err(fault) => also(Err(fault), above),
    }
}

/// A sum.
pub(crate) fn sum_of(alloc: Global, terms: Vec<FoundTerm>) -> Result<FoundScalar, Memory>
    ensures { IfOk result (λ sum. sum ≡ found.sum_of terms.items) }
{
    let at = place_of_terms(&terms);
    let bound = sum_bound(&terms);
    let above = above(&terms);
    let trees = all_of(alloc, term_trees(alloc, terms)?)?;
    Ok(FoundScalar {
        at,
        domain: Some(Domain::Integer),
        bound,
        own_name: None,
        tree: sum_tree(trees, above),
    })
}

/// A WHEN.
fn when_tree(when: FoundWhen) -> Result<SqlWhen, Fault>
    ensures { result ≡ found.when_tree when }
{
    let FoundWhen { cond, value } = when;
    let (cond, value) = paired(cond, value.tree)?;
    Ok(SqlWhen { cond, value })
}

/// The WHENs.
fn when_trees(alloc: Global, whens: Vec<FoundWhen>) -> Result<Vec<Result<SqlWhen, Fault>>, Memory>
    ensures { IfOk result (λ trees. trees.items ≡ map found.when_tree whens.items) }
{
    let mut trees = Vec::new(alloc);
    for when in whens {
        trees.push(when_tree(when))?;
    }
    Ok(trees)
}

/// The domain of the first value.
fn first_domain(whens: &[FoundWhen], last: &Option<FoundScalar>) -> Option<Domain>
    ensures { result ≡ found.first_domain (found.results whens.now last.now) }
{
    match whens.first() {
        Some(when) => when.value.domain,
        None => match last {
            Some(value) => value.domain,
            None => None,
        },
    }
}

/// The greater of two bounds.
fn greater(a: Option<u128>, b: Option<u128>) -> Option<u128>
    ensures { result ≡ both_bounds max a b }
{
    match a {
        None => None,
        Some(m) => match b {
            None => None,
            Some(n) => Some(if m < n { n } else { m }),
        },
    }
}

/// The greatest bound of the values.
fn greatest(whens: &[FoundWhen], last: &Option<FoundScalar>) -> Option<u128>
    ensures { result ≡ found.greatest (found.results whens.now last.now) }
{
    let mut bound = Some(0);
    for when in whens {
        bound = greater(bound, when.value.bound);
    }
    match last {
        Some(value) => greater(bound, value.bound),
        None => bound,
    }
}

/// The first fault of a value that has another domain.
#[tactic(auto, using(crate::proofs::OutcomeLaws::earlier_if_assoc))]
fn first_unlike(
    domain: Option<Domain>,
    whens: &[FoundWhen],
    last: &Option<FoundScalar>,
) -> Option<Fault>
    ensures { result ≡ found.first_unlike domain (found.results whens.now last.now) }
{
    let mut fault = None;
    for when in whens {
        fault = earlier_if(fault, unlike(domain, &when.value));
    }
    match last {
        Some(value) => earlier_if(fault, unlike(domain, value)),
        None => fault,
    }
}

/// The value of ELSE, if it is written.
fn last_tree(
    alloc: Global,
    last: Option<FoundScalar>,
) -> Result<Result<Option<Boxed<SqlScalar>>, Fault>, Memory>
    ensures { IfOk result (λ tree. tree ≡ found.last_tree last) }
{
    match last {
        Some(value) => boxed(alloc, value.tree),
        None => Ok(Ok(None)),
    }
}

/// The value as that of an ELSE.
fn boxed(
    alloc: Global,
    value: Result<SqlScalar, Fault>,
) -> Result<Result<Option<Boxed<SqlScalar>>, Fault>, Memory>
    ensures { IfOk result (λ tree. tree ≡ formed Some value) }
{
    match value {
        Ok(tree) => Ok(Ok(Some(Boxed::new(alloc, tree)?))),
        Err(fault) => Ok(Err(fault)),
    }
}

/// A CASE by its WHENs and its ELSE.
fn case_tree(
    whens: Result<List<SqlWhen>, Fault>,
    last: Result<Option<Boxed<SqlScalar>>, Fault>,
) -> Result<SqlScalar, Fault>
    ensures { result ≡ formed (λ both. Case both.0 both.1) (paired whens last) }
{
    let (whens, last) = paired(whens, last)?;
    Ok(SqlScalar::Case(whens, last))
}

/// A CASE, which begins at this place.
pub(crate) fn choice(
    alloc: Global,
    at: u32,
    whens: Vec<FoundWhen>,
    last: Option<FoundScalar>,
) -> Result<FoundScalar, Memory>
    ensures { IfOk result (λ choice. choice ≡ found.choice at whens.items last) }
{
    let domain = first_domain(&whens, &last);
    let bound = greatest(&whens, &last);
    let fault = first_unlike(domain, &whens, &last);
    let last = last_tree(alloc, last)?;
    let whens = all_of(alloc, when_trees(alloc, whens)?)?;
    Ok(FoundScalar {
        at,
        domain,
        bound,
        own_name: None,
        tree: case_tree(whens, also(last, fault)),
    })
}
