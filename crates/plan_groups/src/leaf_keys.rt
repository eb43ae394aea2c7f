//! The keys of rows by the leaves of a term.
ghost use Rattle.std.specs.Prelude.{◌≡◌, ◌++◌, All, IfOk, OnOk, neg_ℤ, if◌then◌else◌};
ghost use Rattle.prefsql_values.specs.Value.{value_of};
ghost use Rattle.base_prefs.specs.Kind.{IsJudged, key_of, number_of};
ghost use Rattle.pref_terms.specs.Fits.{LeafFits, LeavesFit};
ghost use Rattle.pref_terms.specs.Ranks.{is_highest};
ghost use Rattle.pref_terms.specs.Terms.{keys_of};
ghost use Rattle.plan_groups.specs.Groups.{seen_by};
ghost use Rattle.plan_groups.specs.Groups as groups;
ghost use Rattle.plan_groups.specs.Outcomes.{turned_key};
ghost use Rattle.plan_groups.specs.Ranks.{keys_of_rows, turned_keys};

use base_prefs::{BasePref, BaseView};
use pref_terms::{BoundTerm, Leaf, Term};
use prefsql_tables::{Combo, cell_in_sight};
use prefsql_values::{Cell, Memory};
use std::alloc::Global;

/// The keys of all rows by all leaves, row by row. There are `width` leaves, which tells how much
/// room to take.
pub(crate) fn keys_of_rows(
    alloc: Global,
    bound: &BoundTerm<'_>,
    combos: &[Combo],
    width: usize,
) -> Result<Vec<i128>, Memory>
    requires { All (groups.IsJudged bound.now) combos.now }
    ensures { IfOk result (λ keys. keys.items ≡ keys_of_rows bound.now combos.now) }
{
    let mut keys = Vec::with_capacity(alloc, combos.len().saturating_mul(width))?;
    for combo in combos {
        push_keys(bound, bound.term, false, combo, &mut keys)?;
    }
    Ok(keys)
}

/// Adds the keys of the row by the leaves of the term, in their order, with their signs changed where
/// the term is turned round.
#[tactic(auto, using(crate::proofs::KeyAdds::key_adds))]
fn push_keys(
    bound: &BoundTerm<'_>,
    term: &Term,
    turned: bool,
    combo: &Combo,
    keys: &mut Vec<i128>,
) -> Result<(), Memory>
    requires { LeavesFit bound.now.tables.now bound.now.from.now bound.now.first combo.now.rows
        term.now }
    ensures { OnOk result
        (keys.new.items
        ≡ keys.old.items ++ turned_keys turned (keys_of term.now (seen_by bound.now combo.now))) }
{
    match term {
        Term::Leaf(leaf) => {
            keys.push(leaf_key(bound, leaf, turned, combo))?;
            Ok(())
        }
        Term::Pareto(first, second) => {
            push_keys(bound, first.get(), turned, combo, keys)?;
            push_keys(bound, second.get(), turned, combo, keys)
        }
        Term::Prior(first, second) => {
            push_keys(bound, first.get(), turned, combo, keys)?;
            push_keys(bound, second.get(), turned, combo, keys)
        }
        Term::Dual(inner) => push_keys(bound, inner.get(), !turned, combo, keys),
    }
}

/// The key of the row by the leaf, with its sign changed where the leaf is turned.
#[tactic(auto, using(pref_terms::proofs::Judged::fits_judged))]
fn leaf_key(bound: &BoundTerm<'_>, leaf: &Leaf, turned: bool, combo: &Combo) -> i128
    requires { LeafFits bound.now.tables.now bound.now.from.now bound.now.first combo.now.rows
        leaf.now }
    ensures { result
        ≡ turned_key turned (key_of leaf.now.base (seen_by bound.now combo.now leaf.now.place)) }
{
    bound.tables.keeps_limits();
    let cell = cell_in_sight(leaf.place, bound.tables, bound.from, bound.first, combo);
    let key = value_key(&leaf.base, cell);
    if turned { -key } else { key }
}

/// The key of a value: its level, its distance, its number for LOWEST or its negated number for
/// HIGHEST.
#[tactic(auto, using(pref_terms::proofs::KeyReads::keys))]
fn value_key(base: &BasePref, cell: Cell<'_>) -> i128
    requires { IsJudged base.now (value_of cell) }
    ensures { result ≡ key_of base.now (value_of cell.entry) }
{
    match base.level(cell) {
        Some(level) => i128::from(level),
        None => match base.distance(cell) {
            Some(distance) => distance,
            None => number_key(base, cell),
        },
    }
}

/// The key of a value by LOWEST and by HIGHEST.
fn number_key(base: &BasePref, cell: Cell<'_>) -> i128
    requires { IsJudged base.now (value_of cell) }
    ensures { result ≡ if is_highest base.now then neg_ℤ (number_of (value_of cell.entry))
        else number_of (value_of cell.entry) }
{
    let number = number(cell);
    if is_highest(base) { -number } else { number }
}

/// Whether greater numbers are better.
#[tactic(auto, using(pref_terms::proofs::KeyReads::not_highest))]
fn is_highest(base: &BasePref) -> bool
    ensures { result ≡ is_highest base.now }
{
    match base.view() {
        BaseView::Highest => true,
        _ => false,
    }
}

/// The number of a cell, or 0.
fn number(cell: Cell<'_>) -> i128
    ensures { result ≡ number_of (value_of cell.entry) }
{
    match cell {
        Cell::Num(n) => n,
        Cell::Str(_) | Cell::Null => 0,
    }
}
