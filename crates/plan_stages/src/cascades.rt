//! The parts of a prioritised term.
ghost use Rattle.std.specs.Prelude.{◌≡◌, ◌++◌, IfOk, OnOk};
ghost use Rattle.pref_terms.specs.Cascades.{nested, parts_of};
ghost use Rattle.plan_stages.specs.Separation.{cascade_of, ranks_all, separated};

use pref_terms::Term;
use prefsql_values::{Boxed, Memory};
use std::alloc::Global;

/// Adds the parts of a term: those of both sides of a prioritised node, else the term itself.
#[tactic(auto, using(pref_terms::proofs::CascadeLaws::part_reads))]
fn add_parts(alloc: Global, term: &Term, parts: &mut Vec<Term>) -> Result<(), Memory>
    ensures { OnOk result (parts.new.items ≡ parts.old.items ++ parts_of term.now) }
{
    match term {
        Term::Leaf(_) => {
            parts.push(term.copy(alloc)?)?;
            Ok(())
        }
        Term::Pareto(_, _) => {
            parts.push(term.copy(alloc)?)?;
            Ok(())
        }
        Term::Prior(first, second) => {
            add_parts(alloc, first.get(), parts)?;
            add_parts(alloc, second.get(), parts)
        }
        Term::Dual(_) => {
            parts.push(term.copy(alloc)?)?;
            Ok(())
        }
    }
}

/// Whether the term is a single REGULAR leaf of a weak kind.
#[tactic(auto, using(crate::proofs::RankReads::rank_reads))]
fn ranks_all(term: &Term) -> bool
    ensures { result ≡ ranks_all term.now }
{
    match term {
        Term::Leaf(leaf) => !leaf.trivial && leaf.base.is_weak(),
        Term::Pareto(_, _) => false,
        Term::Prior(_, _) => false,
        Term::Dual(_) => false,
    }
}

/// The parts one before the other, nested to the left.
fn nested(alloc: Global, first: Term, parts: &[Term]) -> Result<Term, Memory>
    ensures { IfOk result (λ term. term ≡ nested first parts.now) }
{
    let mut term = first;
    for part in parts {
        let part = part.copy(alloc)?;
        term = Term::Prior(Boxed::new(alloc, term)?, Boxed::new(alloc, part)?);
    }
    Ok(term)
}

/// Adds each of the first parts that ranks all, but not the last part, and then the rest as one
/// term.
fn add_separated(alloc: Global, parts: &[Term], terms: &mut Vec<Term>) -> Result<(), Memory>
    ensures { OnOk result (terms.new.items ≡ terms.old.items ++ separated parts.now) }
{
    match parts.split_first() {
        None => Ok(()),
        Some((part, more)) => {
            let first = part.copy(alloc)?;
            if ranks_all(part) && !more.is_empty() {
                terms.push(first)?;
                add_separated(alloc, more, terms)
            } else {
                terms.push(nested(alloc, first, more)?)?;
                Ok(())
            }
        }
    }
}

/// The terms by which the best are taken, one after the other.
pub fn cascade(alloc: Global, term: &Term) -> Result<Vec<Term>, Memory>
    ensures { IfOk result (λ terms. terms.items ≡ cascade_of term.now) }
{
    let mut parts = Vec::new(alloc);
    add_parts(alloc, term, &mut parts)?;
    let mut terms = Vec::new(alloc);
    add_separated(alloc, parts.as_slice(), &mut terms)?;
    Ok(terms)
}
