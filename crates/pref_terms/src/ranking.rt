//! How a base preference ranks cells, by its levels, its distances and its view.
ghost use Rattle.std.specs.Prelude.{◌≡◌, ◌<◌, false, length, IsTrue, neg_ℤ, if◌then◌else◌};
ghost use Rattle.prefsql_values.specs.Value.{value_of};
ghost use Rattle.base_prefs.specs.Graph.{graph_values, explicit_better};
ghost use Rattle.base_prefs.specs.Values.{place_of};
ghost use Rattle.base_prefs.specs.Kind.{better_of, same_of, key_of, number_of, edges_of, is_explicit, IsJudged};
ghost use Rattle.pref_terms.specs.Ranks.{is_highest};
ghost use Rattle.pref_terms.specs.Standing.{standing_by};

use base_prefs::{BasePref, BaseView};
use prefsql_values::{Cell, Value, not_distinct};

/// How one combination or value stands to another.
#[derive(Clone, Copy, Debug, PartialEq, Eq)]
pub(crate) enum Standing {
    Better,
    Same,
    Other,
}

/// The number of a cell, or 0.
fn number(cell: Cell<'_>) -> i128
    ensures { result ≡ number_of (value_of cell.entry) }
{
    match cell {
        Cell::Num(n) => n,
        Cell::Str(_) | Cell::Null => 0,
    }
}

/// Whether greater numbers are better.
#[tactic(auto, using(crate::proofs::KeyReads::not_highest))]
fn is_highest(base: &BasePref) -> bool
    ensures { result ≡ is_highest base.now }
{
    match base.view() {
        BaseView::Highest => true,
        _ => false,
    }
}

/// The key of a value: its level, its distance, its number for LOWEST or its negated number for
/// HIGHEST.
#[tactic(auto, using(crate::proofs::KeyReads::keys))]
pub(crate) fn key(base: &BasePref, cell: Cell<'_>) -> i128
    requires { IsJudged base.now (value_of cell) }
    ensures { result ≡ key_of base.now (value_of cell.entry) }
{
    match base.level(cell) {
        Some(level) => i128::from(level),
        None => match base.distance(cell) {
            Some(distance) => distance,
            None => number_key(base, cell),
        },
    }
}

/// The key of a value by LOWEST and by HIGHEST.
fn number_key(base: &BasePref, cell: Cell<'_>) -> i128
    requires { IsJudged base.now (value_of cell) }
    ensures { result ≡ if is_highest base.now then neg_ℤ (number_of (value_of cell.entry))
        else number_of (value_of cell.entry) }
{
    let number = number(cell);
    if is_highest(base) { -number } else { number }
}

/// The number of the first of the values that is the value of the cell, from 0, or how many values
/// there are.
fn position(values: &[Value], cell: Cell<'_>) -> usize
    ensures { result ≡ place_of values.now (value_of cell.entry) }
{
    let mut at = 0;
    for value in values {
        if not_distinct(value.cell(), cell) {
            return at;
        }
        at += 1;
    }
    at
}

/// Whether the value of `a` is better than that of `b` by the graph of EXPLICIT with these values:
/// a path leads from it to that of `b`, or it is one of them and that of `b` is none.
fn graph_better(base: &BasePref, values: &[Value], a: Cell<'_>, b: Cell<'_>) -> bool
    requires explicit { IsTrue (is_explicit base.now) }
    requires listed { values.now ≡ graph_values (edges_of base.now) }
    ensures { result ≡ explicit_better (edges_of base.now) (value_of a.entry) (value_of b.entry) }
{
    let upper = position(values, a);
    let lower = position(values, b);
    if upper < values.len() {
        if lower < values.len() {
            base.graph_better(upper, lower)
        } else {
            true
        }
    } else {
        false
    }
}

/// How the value of `a` stands to that of `b`: it is better by the graph of EXPLICIT, else by the
/// smaller key. Two values are the same with `trivial` where they are equal, else where their keys
/// are.
pub(crate) fn value_standing(base: &BasePref, trivial: bool, a: Cell<'_>, b: Cell<'_>) -> Standing
    requires a_judged { IsJudged base.now (value_of a) }
    requires b_judged { IsJudged base.now (value_of b) }
    ensures { result ≡ standing_by (better_of base.now (value_of a.entry) (value_of b.entry))
        (same_of base.now trivial (value_of a.entry) (value_of b.entry)) }
{
    if base.is_weak() {
        return keyed_standing(base, trivial, a, b);
    }
    if explicit_better(base, a, b) {
        Standing::Better
    } else if same(base, trivial, a, b) {
        Standing::Same
    } else {
        Standing::Other
    }
}

/// The same for a kind that goes by its keys: one for each value.
fn keyed_standing(base: &BasePref, trivial: bool, a: Cell<'_>, b: Cell<'_>) -> Standing
    requires a_judged { IsJudged base.now (value_of a) }
    requires b_judged { IsJudged base.now (value_of b) }
    requires weak { is_explicit base.now ≡ false }
    ensures { result ≡ standing_by (better_of base.now (value_of a.entry) (value_of b.entry))
        (same_of base.now trivial (value_of a.entry) (value_of b.entry)) }
{
    let a_key = key(base, a);
    let b_key = key(base, b);
    if a_key < b_key {
        return Standing::Better;
    }
    let same = if trivial {
        not_distinct(a, b)
    } else {
        a_key == b_key
    };
    if same {
        Standing::Same
    } else {
        Standing::Other
    }
}

/// Whether the value of `a` is better than that of `b` by the graph of EXPLICIT.
fn explicit_better(base: &BasePref, a: Cell<'_>, b: Cell<'_>) -> bool
    requires a_judged { IsJudged base.now (value_of a) }
    requires b_judged { IsJudged base.now (value_of b) }
    requires explicit { IsTrue (is_explicit base.now) }
    ensures { result ≡ better_of base.now (value_of a.entry) (value_of b.entry) }
{
    match base.view() {
        BaseView::Explicit(values) => graph_better(base, values, a, b),
        _ => false,
    }
}

/// Whether the two values are the same: with `trivial` where they are equal, else where their keys
/// are.
pub(crate) fn same(base: &BasePref, trivial: bool, a: Cell<'_>, b: Cell<'_>) -> bool
    requires a_judged { IsJudged base.now (value_of a) }
    requires b_judged { IsJudged base.now (value_of b) }
    ensures { result ≡ same_of base.now trivial (value_of a.entry) (value_of b.entry) }
{
    if trivial {
        not_distinct(a, b)
    } else {
        key(base, a) == key(base, b)
    }
}
