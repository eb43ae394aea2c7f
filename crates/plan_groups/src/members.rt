//! The rows of a list by their groups.
ghost use Rattle.std.specs.Prelude.{◌≡◌, ◌<◌, ◌≤◌, ℕ, All, IfOk, IsPermutation, length, map, true, false, slice_index_or};
ghost use Rattle.std.specs.Cmp.Lexicographic.{slice_cmp};
ghost use Rattle.std.specs.List.{range_with_len};
ghost use Rattle.std.specs.List.Sorted.{IsSorted};
ghost use Rattle.std.specs.Ordering.{is_eq};
ghost use Rattle.prefsql_values.specs.Value.{value_of};
ghost use Rattle.prefsql_tables.specs.Sight.{IsInSight};
ghost use Rattle.plan_groups.specs.Groups.{row_at, seen_by};
ghost use Rattle.plan_groups.specs.Members.{HasGroupOf, by_group, cell_order, place_of};
ghost use Rattle.plan_groups.specs.Groups.{AreInSight};
ghost use Rattle.plan_groups.specs.declared.members.Member.{Member};

use pref_terms::BoundTerm;
use prefsql_tables::{Combo, cell_in_sight};
use prefsql_values::{Cell, Memory, order_nulls_last};
use std::alloc::Global;
use std::cmp::Ordering;

/// A row of a list: its place there, and its cells in the group columns.
#[derive(Drop)]
pub(crate) struct Member<'t> {
    pub place: usize,
    pub key: Vec<Cell<'t>>,
}

/// The rows of the list, in their order.
pub(crate) fn members<'t>(
    alloc: Global,
    bound: &BoundTerm<'t>,
    combos: &[Combo],
) -> Result<Vec<Member<'t>>, Memory>
    requires { All (AreInSight bound.now) combos.now }
    ensures places { IfOk result
        (λ members. map place_of members.items ≡ range_with_len 0 (length combos.now)) }
    ensures groups { IfOk result (λ members. All (HasGroupOf bound.now combos.now) members.items) }
{
    let mut members = Vec::with_capacity(alloc, combos.len())?;
    for (place, combo) in combos.iter().enumerate() {
        members.push(Member {
            place,
            key: group_key(alloc, bound, combo)?,
        })?;
    }
    Ok(members)
}

/// The cells that the row has in the group columns.
fn group_key<'t>(
    alloc: Global,
    bound: &BoundTerm<'t>,
    combo: &Combo,
) -> Result<Vec<Cell<'t>>, Memory>
    requires { AreInSight bound.now combo.now }
    ensures { IfOk result
        (λ key. map value_of key.items ≡ map (seen_by bound.now combo.now) bound.now.groups.now) }
{
    let mut key = Vec::with_capacity(alloc, bound.groups.len())?;
    for place in bound.groups {
        let cell = cell_in_sight(*place, bound.tables, bound.from, bound.first, combo);
        key.push(cell)?;
    }
    Ok(key)
}

/// The members with those of one group side by side.
pub(crate) fn sorted(members: Vec<Member<'_>>) -> Result<Vec<Member<'_>>, Memory>
    ensures permutation { IfOk result (λ sorted. IsPermutation members.entry.items sorted.items) }
    ensures sorted { IfOk result (λ sorted. IsSorted by_group sorted.items) }
{
    let mut sorted = members;
    sorted.sort_by(|a, b| by_cells(a.key.as_slice(), b.key.as_slice()))?;
    Ok(sorted)
}

/// The order of two lists of cells: the first two that differ decide, NULL after all values.
fn by_cells(a: &[Cell<'_>], b: &[Cell<'_>]) -> Ordering
    ensures { result ≡ slice_cmp cell_order a.now b.now }
{
    for (place, x) in a.iter().enumerate() {
        match b.get(place) {
            None => return Ordering::Greater,
            Some(y) => match order_nulls_last(*x, *y) {
                Ordering::Equal => {}
                ordering => return ordering,
            },
        }
    }
    if a.len() < b.len() {
        Ordering::Less
    } else {
        Ordering::Equal
    }
}

/// How many of the first members are of the group of the first one.
pub(crate) fn run_length(members: &[Member<'_>]) -> usize
    requires { 0 < length members.now }
    ensures some { 0 < result }
    ensures bounded { result ≤ length members.now }
    ensures one_group { (k : ℕ) (d : Member) → k < result
        → is_eq (by_group (slice_index_or members.now 0 d) (slice_index_or members.now k d))
        ≡ true }
    ensures ends { (d : Member) → result < length members.now
        → is_eq (by_group (slice_index_or members.now 0 d) (slice_index_or members.now result d))
        ≡ false }
{
    let first = &members[0];
    for (place, member) in members.iter().enumerate() {
        if !is_same_group(first, member) {
            return place;
        }
    }
    members.len()
}

/// Whether the two are of one group.
fn is_same_group(a: &Member<'_>, b: &Member<'_>) -> bool
    ensures { result ≡ is_eq (by_group a.now b.now) }
{
    by_cells(a.key.as_slice(), b.key.as_slice()).is_eq()
}
