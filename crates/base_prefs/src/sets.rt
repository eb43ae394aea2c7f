//! Sets of values: how many they have, whether they share one, and each value once.
ghost use Rattle.std.specs.Prelude.{◌≡◌, ◌+◌, ◌<◌, ◌↔◌, [], ◌∷◌, ◌++◌, length, map, nat_le, IsTrue, IfOk, IfSome, IfNone};
ghost use Rattle.base_prefs.specs.Sets.{once, written, HasOverlap};
ghost use Rattle.base_prefs.specs.Table.{share, shares_any, overlaps};
ghost use Rattle.base_prefs.specs.Values.{firsts};

use crate::edge::ValueSet;
use crate::judge::contains;
use prefsql_values::{List, Memory, Value};
use std::alloc::Global;

/// The most values that may be written in the sets of a preference.
const MOST_VALUES: usize = 256;

/// Each value once, at its first place.
#[tactic(auto, using(crate::proofs::Firsts::adding_all))]
fn firsts(alloc: Global, values: List<Value>) -> Result<List<Value>, Memory>
    ensures { IfOk result (λ kept. kept ≡ firsts values) }
{
    let mut kept = List::new(alloc);
    for value in values.into_vec() {
        if !contains(kept.as_slice(), value.cell()) {
            kept.push(value)?;
        }
    }
    Ok(kept)
}

/// The set with each of its values once, at its first place.
pub fn once(alloc: Global, set: ValueSet) -> Result<ValueSet, Memory>
    ensures { IfOk result (λ kept. kept ≡ once set) }
{
    let ValueSet { values } = set;
    let values = firsts(alloc, values)?;
    Ok(ValueSet { values })
}

/// Each of the sets with each of its values once.
pub fn each_once(alloc: Global, sets: List<ValueSet>) -> Result<List<ValueSet>, Memory>
    ensures { IfOk result (λ kept. kept ≡ map once sets) }
{
    let mut kept = List::new(alloc);
    for set in sets.into_vec() {
        kept.push(once(alloc, set)?)?;
    }
    Ok(kept)
}

/// How many values more there is room for, or None where the sets have more than there is room for.
fn room_after(room: usize, sets: &[ValueSet]) -> Option<usize>
    ensures some { IfSome result (λ left. left + length (written sets.now) ≡ room) }
    ensures none { IfNone result (room < length (written sets.now)) }
{
    let mut left = room;
    for set in sets {
        let count = set.values.as_slice().len();
        if left < count {
            return None;
        }
        left -= count;
    }
    Some(left)
}

/// Whether a set has no more values than may be written.
pub fn fits(set: &ValueSet) -> bool
    ensures { result ≡ nat_le (length set.now.values) 256 }
{
    set.values.as_slice().len() <= MOST_VALUES
}

/// Whether two sets together have no more values than may be written.
pub fn both_fit(first: &ValueSet, second: &ValueSet) -> bool
    ensures { result ≡ nat_le (length (written (first.now ∷ second.now ∷ []))) 256 }
{
    let count = first.values.as_slice().len();
    count <= MOST_VALUES && second.values.as_slice().len() <= MOST_VALUES - count
}

/// Whether the sets of both lists together have no more values than may be written.
pub fn all_fit(before: &[ValueSet], after: &[ValueSet]) -> bool
    ensures { result ≡ nat_le (length (written (before.now ++ after.now))) 256 }
{
    match room_after(MOST_VALUES, before) {
        Some(room) => room_after(room, after).is_some(),
        None => false,
    }
}

/// Whether the two sets share a value.
fn share(set: &ValueSet, other: &ValueSet) -> bool
    ensures { result ≡ share set.now other.now }
{
    for value in set.values.as_slice() {
        if contains(other.values.as_slice(), value.cell()) {
            return true;
        }
    }
    false
}

/// Whether the set shares a value with one of the others.
fn shares_any(set: &ValueSet, others: &[ValueSet]) -> bool
    ensures { result ≡ shares_any set.now others.now }
{
    for other in others {
        if share(set, other) {
            return true;
        }
    }
    false
}

/// Whether one of the sets shares a value with a later one, or with one of those after them.
fn overlaps(sets: &[ValueSet], after: &[ValueSet]) -> bool
    ensures { result ≡ overlaps sets.now after.now }
{
    for (at, set) in sets.iter().enumerate() {
        if shares_any(set, &sets[at + 1..]) || shares_any(set, after) {
            return true;
        }
    }
    false
}

/// Whether two sets share a value, said as of all sets of a preference.
pub fn both_overlap(first: &ValueSet, second: &ValueSet) -> bool
    ensures { IsTrue result ↔ HasOverlap (first.now ∷ second.now ∷ []) }
{
    share(first, second)
}

/// Whether two sets of both lists together share a value.
pub fn any_overlap(before: &[ValueSet], after: &[ValueSet]) -> bool
    ensures { IsTrue result ↔ HasOverlap (before.now ++ after.now) }
{
    if overlaps(before, after) {
        return true;
    }
    overlaps(after, &[])
}
