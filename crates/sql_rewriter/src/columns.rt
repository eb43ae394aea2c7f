//! The columns of the auxiliary query.
ghost use Rattle.std.specs.Prelude.{◌≡◌, ◌+◌, ◌*◌, ◌-◌, ◌<◌, ◌≤◌, ◌^◌, length, take};
ghost use Rattle.std.specs.List.{flat_map};
ghost use Rattle.pref_terms.specs.Terms.{leaves_of};
ghost use Rattle.base_prefs.specs.Kind.{is_explicit};
ghost use Rattle.rewritten_query.specs.Columns.{leaf_items, number_among, place_eq, rank_column};

use pref_terms::Term;
use prefsql_tables::ColumnPlace;

pub(crate) fn is_place(p: ColumnPlace, q: ColumnPlace) -> bool
    ensures { result ≡ place_eq p q }
{
    p.table == q.table && p.column == q.column
}

/// The number of the place, from 0, or how many places there are.
pub(crate) fn number_among(places: &[ColumnPlace], place: ColumnPlace) -> u32
    requires { length places.now < 2 ^ 32 }
    ensures value { result ≡ number_among places.now place }
    ensures within { result ≤ length places.now }
{
    let mut number = 0;
    for other in places {
        if is_place(*other, place) {
            return number;
        }
        number += 1;
    }
    number
}

/// How many leaves the term has.
fn leaf_count(term: &Term) -> u32
    requires { length (leaves_of term.now) < 2 ^ 16 }
    ensures { result ≡ length (leaves_of term.now) }
{
    match term {
        Term::Leaf(_) => 1,
        Term::Pareto(first, second) => leaf_count(first.get()) + leaf_count(second.get()),
        Term::Prior(first, second) => leaf_count(first.get()) + leaf_count(second.get()),
        Term::Dual(inner) => leaf_count(inner.get()),
    }
}

/// How many items the first leaves have.
#[tactic(auto, using(crate::proofs::Widths::widths))]
fn width(term: &Term, count: u32) -> u32
    requires { length (leaves_of term.now) < 2 ^ 16 }
    ensures value { result ≡ length (flat_map leaf_items (take count (leaves_of term.now))) }
    ensures few { result ≤ 2 * length (leaves_of term.now) }
{
    match term {
        Term::Leaf(leaf) => {
            if count == 0 {
                0
            } else if leaf.base.is_weak() {
                1
            } else {
                2
            }
        }
        Term::Pareto(first, second) => {
            let passed = leaf_count(first.get());
            width(first.get(), count) + width(second.get(), count.saturating_sub(passed))
        }
        Term::Prior(first, second) => {
            let passed = leaf_count(first.get());
            width(first.get(), count) + width(second.get(), count.saturating_sub(passed))
        }
        Term::Dual(inner) => width(inner.get(), count),
    }
}

/// The column, from 0, of what the leaf of this number ranks by.
pub(crate) fn rank_column(places: &[ColumnPlace], term: &Term, leaf: u32) -> u32
    requires few_places { length places.now < 2 ^ 16 }
    requires few_leaves { length (leaves_of term.now) < 2 ^ 16 }
    ensures value { result ≡ rank_column places.now (leaves_of term.now) leaf }
    ensures small { result < 2 ^ 31 }
{
    places.len() as u32 + width(term, leaf.saturating_sub(1))
}
