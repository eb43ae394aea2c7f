//! The leaves of a term in the order in which they are asked, and which of two rows is better by
//! them.
ghost use Rattle.std.specs.Prelude.{◌≡◌, ◌+◌, ◌<◌, ◌≤◌, ◌^◌, All, IfOk, OnOk, false, length, nat_lt, if◌then◌else◌};
ghost use Rattle.std.specs.Ordering.{int_cmp, is_lt};
ghost use Rattle.std.specs.Cmp.Lexicographic.{slice_cmp};
ghost use Rattle.pref_terms.specs.Fits.{LeavesFit};
ghost use Rattle.plan_groups.specs.Groups.{IsJudged};
ghost use Rattle.plan_groups.specs.Jumps.{AddsLeaves, Tells, is_better_by, jumps_of, outcomes, shape_of};

use crate::leaf_tests::{LeafTest, key_order, leaf_test};
use pref_terms::{BoundTerm, Term};
use prefsql_tables::Combo;
use prefsql_values::{Memory, Steps};
use std::alloc::Global;
use std::cmp::Ordering;
use std::sync::ledger::Ledger;

/// Which leaves are passed over behind a leaf.
#[derive(Clone, Copy)]
pub(crate) struct Jump {
    /// The place of the first leaf of the part that ends here and counts more than what is behind
    /// it.
    pub start: usize,
    /// How many leaves are passed over where by one of that part the row is better.
    pub skip: usize,
}

/// A leaf of a term, as rows are compared by it.
#[derive(Drop)]
pub(crate) struct RankedLeaf<'t> {
    pub test: LeafTest<'t>,
    pub jump: Jump,
}

/// The leaves of the term, as the rows are compared by them.
pub(crate) fn ranked_leaves<'t>(
    alloc: Global,
    bound: &BoundTerm<'t>,
    combos: &[Combo],
) -> Result<Vec<RankedLeaf<'t>>, Memory>
    requires { All (IsJudged bound.now) combos.now }
    ensures jumps { IfOk result
        (λ leaves. jumps_of leaves.items ≡ (shape_of bound.now.term.now).jumps 0 0 0) }
    ensures tells { IfOk result
        (λ leaves. Tells bound.now combos.now false bound.now.term.now leaves.items) }
{
    let mut leaves = Vec::new(alloc);
    let none = Jump { start: 0, skip: 0 };
    push_leaves(alloc, bound, bound.term, false, none, combos, &mut leaves)?;
    Ok(leaves)
}

/// Adds the leaves of the term, or of the term turned round. The jump is that behind its last one.
fn push_leaves<'t>(
    alloc: Global,
    bound: &BoundTerm<'t>,
    term: &'t Term,
    turned: bool,
    jump: Jump,
    combos: &[Combo],
    leaves: &mut Vec<RankedLeaf<'t>>,
) -> Result<(), Memory>
    requires { All (λ combo.
        LeavesFit bound.now.tables.now bound.now.from.now bound.now.first combo.rows term.now)
        combos.now }
    ensures { OnOk result (AddsLeaves bound.now combos.now turned term.now jump.start jump.skip
        leaves.old.items leaves.new.items) }
{
    match term {
        Term::Leaf(leaf) => {
            let test = leaf_test(alloc, bound, leaf, turned, combos)?;
            leaves.push(RankedLeaf { test, jump })?;
            Ok(())
        }
        Term::Pareto(first, second) => {
            let none = Jump { start: 0, skip: 0 };
            push_leaves(alloc, bound, first.get(), turned, none, combos, leaves)?;
            push_leaves(alloc, bound, second.get(), turned, jump, combos, leaves)
        }
        Term::Prior(first, second) => {
            let over = jump_over(second.get(), leaves.len(), jump.skip)?;
            push_leaves(alloc, bound, first.get(), turned, over, combos, leaves)?;
            push_leaves(alloc, bound, second.get(), turned, jump, combos, leaves)
        }
        Term::Dual(inner) => {
            push_leaves(alloc, bound, inner.get(), !turned, jump, combos, leaves)
        }
    }
}

/// The jump over the leaves of the term, and so many behind it.
fn jump_over(term: &Term, start: usize, skip: usize) -> Result<Jump, Memory>
    ensures { IfOk result
        (λ jump. jump ≡ record { start = start; skip = (shape_of term.now).width + skip }) }
{
    let count = leaf_count(term)?;
    Ok(Jump {
        start,
        skip: sum(count, skip)?,
    })
}

/// How many leaves the term has. More than can be counted have no room in memory.
#[tactic(auto, using(crate::proofs::JumpLaws::shape_reads))]
fn leaf_count(term: &Term) -> Result<usize, Memory>
    ensures { IfOk result (λ count. count ≡ (shape_of term.now).width) }
{
    match term {
        Term::Leaf(_) => Ok(1),
        Term::Pareto(first, second) => {
            let count = leaf_count(first.get())?;
            sum(count, leaf_count(second.get())?)
        }
        Term::Prior(first, second) => {
            let count = leaf_count(first.get())?;
            sum(count, leaf_count(second.get())?)
        }
        Term::Dual(inner) => leaf_count(inner.get()),
    }
}

fn sum(a: usize, b: usize) -> Result<usize, Memory>
    ensures { IfOk result (λ sum. sum ≡ a + b) }
{
    match a.checked_add(b) {
        Some(sum) => Ok(sum),
        None => Err(Memory),
    }
}

/// Whether the row at the place `a`, with the keys `xs`, is better than that at `b`, with the keys
/// `ys`. It is not where it stands behind by a leaf that is asked.
pub(crate) fn is_better<L: Ledger>(
    leaves: &[RankedLeaf<'_>],
    xs: &[i128],
    ys: &[i128],
    a: usize,
    b: usize,
    steps: &mut Steps<L>,
) -> bool
    requires some { 0 < length leaves.now }
    requires first_keys { length xs.now ≡ length leaves.now }
    requires second_keys { length ys.now ≡ length leaves.now }
    ensures truth { result
        ≡ is_better_by 0 0 0 (jumps_of leaves.now) (outcomes leaves.now xs.now ys.now a b) }
    ensures least_steps { steps.old + 1 ≤ steps.new }
    ensures most_steps { steps.new ≤ steps.old + length leaves.now }
{
    let mut last = 0;
    let mut skip = 0;
    for (at, leaf) in leaves.iter().enumerate() {
        if skip > 0 {
            skip -= 1;
            continue;
        }
        steps.tick();
        let (x, y) = (xs[at], ys[at]);
        let outcome = leaf.test.outcome(x, y, a, b);
        if outcome.is_gt() {
            return false;
        }
        last = latest(outcome, at, last);
        skip = passed_over(leaf.jump, last);
    }
    last > 0
}

/// The number, from 1, of the last leaf by which the row is better, behind the leaf at `at`.
fn latest(outcome: Ordering, at: usize, last: usize) -> usize
    requires { at + 1 < 2 ^ 64 }
    ensures { result ≡ (if is_lt outcome then at + 1 else last) }
{
    if outcome.is_lt() { at + 1 } else { last }
}

/// How many leaves are passed over, where the leaf with the number `last` is the last one by which
/// the row is better.
fn passed_over(jump: Jump, last: usize) -> usize
    ensures { result ≡ (if nat_lt jump.start last then jump.skip else 0) }
{
    if jump.start < last { jump.skip } else { 0 }
}

/// The order of two lists of keys: the first two that differ decide.
pub(crate) fn compare_keys(first: &[i128], second: &[i128]) -> Ordering
    requires { length first.now ≡ length second.now }
    ensures { result ≡ slice_cmp int_cmp first.now second.now }
{
    for (at, x) in first.iter().enumerate() {
        match key_order(*x, second[at]) {
            Ordering::Equal => {}
            ordering => return ordering,
        }
    }
    Ordering::Equal
}
