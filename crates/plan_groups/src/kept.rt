//! The places of the rows that are best in their groups.
ghost use Rattle.std.specs.Prelude.{◌≡◌, ◌+◌, ◌*◌, ◌-◌, ◌^◌, ◌<◌, ◌≤◌, ◌++◌, All, IfOk, OnOk, length, map};
ghost use Rattle.std.specs.List.Sorted.{IsSorted};
ghost use Rattle.std.specs.Ordering.{on};
ghost use Rattle.order_laws.specs.Best.{best};
ghost use Rattle.pref_terms.specs.Terms.{grouped_order, is_same_group, leaves_of, order_of};
ghost use Rattle.plan_groups.specs.Counts.{within_groups};
ghost use Rattle.plan_groups.specs.Groups.{IsJudged, IsRow, seen_at};
ghost use Rattle.plan_groups.specs.Members.{HasGroupOf, by_group, place_of};

use crate::jumps::ranked_leaves;
use crate::leaf_keys::keys_of_rows;
use crate::members::{Member, run_length};
use crate::ranked::RankedRows;
use pref_terms::BoundTerm;
use prefsql_tables::Combo;
use prefsql_values::{Memory, Steps};
use std::alloc::Global;
use std::sync::ledger::Ledger;
use window_eval::best_of;

/// Places of rows, and how many tests finding them took.
#[derive(Drop)]
pub(crate) struct Kept {
    pub places: Vec<usize>,
    pub tests: u64,
}

/// The places of the members that are best in their groups, group by group.
pub(crate) fn best_places<L: Ledger>(
    alloc: Global,
    bound: &BoundTerm<'_>,
    combos: &[Combo],
    members: &[Member<'_>],
    steps: &mut Steps<L>,
) -> Result<Kept, Memory>
    requires judged { All (IsJudged bound.now) combos.now }
    requires rows { All (IsRow bound.now combos.now) (map place_of members.now) }
    requires groups { All (HasGroupOf bound.now combos.now) members.now }
    requires sorted { IsSorted by_group members.now }
    ensures exact { IfOk result
        (λ kept. kept.places.items
        ≡ best (on (seen_at bound.now combos.now)
        ((grouped_order bound.now.groups.now bound.now.term.now).better))
        (map place_of members.now)) }
    ensures least_tests { IfOk result
        (λ kept. length members.now ≤ kept.tests + length kept.places.items) }
    ensures most_tests { IfOk result
        (λ kept. kept.tests
        ≤ within_groups (on (seen_at bound.now combos.now) (is_same_group bound.now.groups.now))
        (map place_of members.now) kept.places.items) }
    ensures least_steps { IfOk result (λ kept. steps.old + kept.tests ≤ steps.new) }
    ensures most_steps { IfOk result (λ kept. kept.tests < 2 ^ 64 - 1
        → steps.new ≤ steps.old + kept.tests * length (leaves_of bound.now.term.now)) }
{
    let leaves = ranked_leaves(alloc, bound, combos)?;
    let keys = keys_of_rows(alloc, bound, combos, leaves.len())?;
    let rows = RankedRows {
        bound,
        combos,
        keys,
        leaves,
    };
    let mut places = Vec::new(alloc);
    let mut tests: u64 = 0;
    let mut at = 0;
    while at < members.len() {
        let end = at + run_length(&members[at..]);
        let added = add_best(alloc, &rows, &members[at..end], &mut places, steps)?;
        tests = tests.saturating_add(added);
        at = end;
    }
    Ok(Kept { places, tests })
}

/// Adds the places of the best of these members, which are of one group. Gives how many tests that
/// took.
fn add_best<L: Ledger>(
    alloc: Global,
    rows: &RankedRows<'_>,
    members: &[Member<'_>],
    places: &mut Vec<usize>,
    steps: &mut Steps<L>,
) -> Result<u64, Memory>
    requires { All (IsRow rows.now.bound.now rows.now.combos.now) (map place_of members.now) }
    ensures exact { OnOk result (places.new.items ≡ places.old.items
        ++ best (on (seen_at rows.now.bound.now rows.now.combos.now)
        ((order_of rows.now.bound.now.term.now).better)) (map place_of members.now)) }
    ensures least_tests { IfOk result
        (λ tests. length members.now
        ≤ tests + length (best (on (seen_at rows.now.bound.now rows.now.combos.now)
        ((order_of rows.now.bound.now.term.now).better)) (map place_of members.now))) }
    ensures most_tests { IfOk result
        (λ tests. tests ≤ length members.now
        * length (best (on (seen_at rows.now.bound.now rows.now.combos.now)
        ((order_of rows.now.bound.now.term.now).better)) (map place_of members.now))) }
    ensures least_steps { IfOk result (λ tests. steps.old + tests ≤ steps.new) }
    ensures most_steps { IfOk result (λ tests. tests < 2 ^ 64 - 1
        → steps.new ≤ steps.old + tests * length (leaves_of rows.now.bound.now.term.now)) }
{
    let group = places_of(alloc, members)?;
    let chosen = best_of(alloc, rows, group, steps)?;
    places.extend_from_slice(chosen.items.as_slice())?;
    Ok(chosen.tests)
}

/// The places of the members.
fn places_of(alloc: Global, members: &[Member<'_>]) -> Result<Vec<usize>, Memory>
    ensures { IfOk result (λ places. places.items ≡ map place_of members.now) }
{
    let places = members.iter().map(|member| member.place).collect(alloc)?;
    Ok(places)
}
