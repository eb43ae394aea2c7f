//! The conditions of a term: that a rival is better, and that both are the same.
ghost use Rattle.std.specs.Prelude.{◌≡◌, ◌<◌, ◌^◌, [], ◌∷◌, length, IfOk};
ghost use Rattle.sql_tree.specs.declared.tree.SqlCond.{And, Or};
ghost use Rattle.pref_terms.specs.Terms.{leaves_of};
ghost use Rattle.rewritten_query.specs.Rankings.{better_if, leaf_ranking, ranking_of};

use crate::columns::{number_among, rank_column};
use crate::rankings::{kind_better, of_candidate, of_rival};
use pref_terms::{Leaf, Term};
use prefsql_tables::ColumnPlace;
use prefsql_values::{CompareOp, List, Memory};
use sql_tree::SqlCond;
use std::alloc::Global;

/// An And of two conditions.
pub(crate) fn both(alloc: Global, first: SqlCond, second: SqlCond) -> Result<SqlCond, Memory>
    ensures { IfOk result (λ cond. cond ≡ And (first ∷ second ∷ [])) }
{
    let mut parts = List::new(alloc);
    parts.push(first)?;
    parts.push(second)?;
    Ok(SqlCond::And(parts))
}

/// An Or of two conditions.
pub(crate) fn either(alloc: Global, first: SqlCond, second: SqlCond) -> Result<SqlCond, Memory>
    ensures { IfOk result (λ cond. cond ≡ Or (first ∷ second ∷ [])) }
{
    let mut parts = List::new(alloc);
    parts.push(first)?;
    parts.push(second)?;
    Ok(SqlCond::Or(parts))
}

/// The rival is better by the leaf, or turned round the candidate.
#[tactic(auto, using(crate::proofs::TermReads::leaf_sides))]
fn leaf_better(
    alloc: Global,
    places: &[ColumnPlace],
    whole: &Term,
    turned: bool,
    leaf: &Leaf,
) -> Result<SqlCond, Memory>
    requires few_places { length places.now < 2 ^ 16 }
    requires few_leaves { length (leaves_of whole.now) < 2 ^ 16 }
    ensures { IfOk result
        (λ cond. cond ≡ better_if turned (leaf_ranking places.now (leaves_of whole.now) leaf.now)) }
{
    kind_better(
        alloc,
        &leaf.base,
        turned,
        rank_column(places, whole, leaf.number),
    )
}

/// Both are the same by the leaf.
fn leaf_same(places: &[ColumnPlace], whole: &Term, leaf: &Leaf) -> SqlCond
    requires few_places { length places.now < 2 ^ 16 }
    requires few_leaves { length (leaves_of whole.now) < 2 ^ 16 }
    ensures { result ≡ (leaf_ranking places.now (leaves_of whole.now) leaf.now).same }
{
    let column = if leaf.trivial {
        number_among(places, leaf.place)
    } else {
        rank_column(places, whole, leaf.number)
    };
    SqlCond::Compare(CompareOp::Eq, of_rival(column), of_candidate(column))
}

/// Both are the same by the term.
#[tactic(auto, using(crate::proofs::TermReads::same_reads))]
fn same(alloc: Global, places: &[ColumnPlace], whole: &Term, term: &Term) -> Result<SqlCond, Memory>
    requires few_places { length places.now < 2 ^ 16 }
    requires few_leaves { length (leaves_of whole.now) < 2 ^ 16 }
    ensures { IfOk result
        (λ cond. cond ≡ (ranking_of places.now (leaves_of whole.now) term.now).same) }
{
    match term {
        Term::Leaf(leaf) => Ok(leaf_same(places, whole, leaf)),
        Term::Pareto(first, second) => {
            let p = same(alloc, places, whole, first.get())?;
            let q = same(alloc, places, whole, second.get())?;
            both(alloc, p, q)
        }
        Term::Prior(first, second) => {
            let p = same(alloc, places, whole, first.get())?;
            let q = same(alloc, places, whole, second.get())?;
            both(alloc, p, q)
        }
        Term::Dual(inner) => same(alloc, places, whole, inner.get()),
    }
}

/// The rival is better by the term, or turned round the candidate: the sides are exchanged in the
/// better condition of each leaf, and not in a same condition.
#[tactic(auto, using(crate::proofs::TermReads::better_reads))]
pub(crate) fn better(
    alloc: Global,
    places: &[ColumnPlace],
    whole: &Term,
    turned: bool,
    term: &Term,
) -> Result<SqlCond, Memory>
    requires few_places { length places.now < 2 ^ 16 }
    requires few_leaves { length (leaves_of whole.now) < 2 ^ 16 }
    ensures { IfOk result
        (λ cond. cond ≡ better_if turned (ranking_of places.now (leaves_of whole.now) term.now)) }
{
    match term {
        Term::Leaf(leaf) => leaf_better(alloc, places, whole, turned, leaf),
        Term::Pareto(first, second) => {
            let p = better(alloc, places, whole, turned, first.get())?;
            let q = better(alloc, places, whole, turned, second.get())?;
            let same_q = same(alloc, places, whole, second.get())?;
            let either_q = either(alloc, q, same_q)?;
            let by_first = both(alloc, p, either_q)?;
            let same_p = same(alloc, places, whole, first.get())?;
            let again = better(alloc, places, whole, turned, second.get())?;
            let by_second = both(alloc, same_p, again)?;
            either(alloc, by_first, by_second)
        }
        Term::Prior(first, second) => {
            let p = better(alloc, places, whole, turned, first.get())?;
            let same_p = same(alloc, places, whole, first.get())?;
            let q = better(alloc, places, whole, turned, second.get())?;
            let by_second = both(alloc, same_p, q)?;
            either(alloc, p, by_second)
        }
        Term::Dual(inner) => better(alloc, places, whole, !turned, inner.get()),
    }
}
