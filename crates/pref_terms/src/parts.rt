//! What is left of a term over one table, and which leaves are closed.
ghost use Rattle.std.specs.Prelude.{◌≡◌, ◌≢◌, ◌↔◌, IfOk, IsTrue, IsNone, All, Contains, nat_eq, filter};
ghost use Rattle.std.specs.List.{list_any};
ghost use Rattle.pref_terms.specs.Terms.{leaves_of};
ghost use Rattle.pref_terms.specs.Parts.{restricted, is_on, leaves_left, pareto_left, prior_left, dual_left, closed_numbers};

use crate::term::Term;
use prefsql_values::{Boxed, Memory};
use std::alloc::Global;

/// The term without the leaves of other tables than the FROM table at this position. Where a
/// constructor loses one part, the other part takes its place; a dual term that loses its part is
/// lost. None where no leaf is left.
pub fn restrict(alloc: Global, term: &Term, table: u32) -> Result<Option<Term>, Memory>
    ensures exact { IfOk result (λ left. left ≡ restricted table term.now) }
    ensures leaves { IfOk result
        (λ left. leaves_left left ≡ filter (is_on table) (leaves_of term.now)) }
    ensures none { IfOk result
        (λ left. IsNone left ↔ All (λ leaf. leaf.place.table ≢ table) (leaves_of term.now)) }
{
    let left = restrict_part(alloc, term, table)?;
    Ok(left)
}

/// What is left of the term.
#[tactic(auto, using(crate::proofs::PartReads::lefts))]
fn restrict_part(alloc: Global, term: &Term, table: u32) -> Result<Option<Term>, Memory>
    ensures { IfOk result (λ left. left ≡ restricted table term.now) }
{
    match term {
        Term::Leaf(leaf) => {
            if leaf.place.table == table {
                Ok(Some(Term::Leaf(leaf.copy(alloc)?)))
            } else {
                Ok(None)
            }
        }
        Term::Pareto(first, second) => {
            let first = restrict_part(alloc, first.get(), table)?;
            let second = restrict_part(alloc, second.get(), table)?;
            join_pareto(alloc, first, second)
        }
        Term::Prior(first, second) => {
            let first = restrict_part(alloc, first.get(), table)?;
            let second = restrict_part(alloc, second.get(), table)?;
            join_prior(alloc, first, second)
        }
        Term::Dual(inner) => turn_left(alloc, restrict_part(alloc, inner.get(), table)?),
    }
}

/// Both parts joined, or the one that is left.
fn join_pareto(
    alloc: Global,
    first: Option<Term>,
    second: Option<Term>,
) -> Result<Option<Term>, Memory>
    ensures { IfOk result (λ left. left ≡ pareto_left first second) }
{
    match first {
        None => Ok(second),
        Some(first) => match second {
            None => Ok(Some(first)),
            Some(second) => Ok(Some(Term::Pareto(
                Boxed::new(alloc, first)?,
                Boxed::new(alloc, second)?,
            ))),
        },
    }
}

/// The first part before the second, or the one that is left.
fn join_prior(
    alloc: Global,
    first: Option<Term>,
    second: Option<Term>,
) -> Result<Option<Term>, Memory>
    ensures { IfOk result (λ left. left ≡ prior_left first second) }
{
    match first {
        None => Ok(second),
        Some(first) => match second {
            None => Ok(Some(first)),
            Some(second) => Ok(Some(Term::Prior(
                Boxed::new(alloc, first)?,
                Boxed::new(alloc, second)?,
            ))),
        },
    }
}

/// What is left turned round, or nothing where nothing is left.
fn turn_left(alloc: Global, left: Option<Term>) -> Result<Option<Term>, Memory>
    ensures { IfOk result (λ turned. turned ≡ dual_left left) }
{
    match left {
        None => Ok(None),
        Some(inner) => Ok(Some(Term::Dual(Boxed::new(alloc, inner)?))),
    }
}

/// Whether a leaf with this number is reached through Pareto nodes and first parts of Prior nodes
/// alone.
#[tactic(auto, using(crate::proofs::PartReads::closed_found))]
pub fn is_closed_leaf(term: &Term, leaf: u32) -> bool
    ensures test { result ≡ list_any (nat_eq leaf) (closed_numbers term.now) }
    ensures meaning { IsTrue result ↔ Contains (closed_numbers term.now) leaf }
{
    has_closed(term, leaf)
}

/// Whether the number is one of a closed leaf.
#[tactic(auto, using(crate::proofs::PartReads::closed_reads))]
fn has_closed(term: &Term, number: u32) -> bool
    ensures { result ≡ list_any (nat_eq number) (closed_numbers term.now) }
{
    match term {
        Term::Leaf(leaf) => number == leaf.number,
        Term::Pareto(first, second) => {
            has_closed(first.get(), number) || has_closed(second.get(), number)
        }
        Term::Prior(first, _) => has_closed(first.get(), number),
        Term::Dual(_) => false,
    }
}
