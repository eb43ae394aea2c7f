//! Which conditions of BUT ONLY may be asked before the preference.
ghost use Rattle.std.specs.Prelude.{◌≡◌, ◌&&◌, not, filter, IfOk};
ghost use Rattle.std.specs.List.{list_all};
ghost use Rattle.pref_terms.specs.Parts.{closed_numbers};
ghost use Rattle.plan_algebra.specs.Conjuncts.{onlys};
ghost use Rattle.plan_stages.specs.Sinking.{is_bound, is_closed, is_group_scalar, is_of_groups, is_place, is_place_in, is_quality_of, is_sunk, is_upper, lowered, sinks, staying};
ghost use Rattle.query_meaning.specs.Valid.{IsValidBlock};

use crate::conjuncts::{onlys, wheres};
use conditions::{Cond, Quality, Scalar};
use plan_algebra::Conjunct;
use pref_terms::{Term, is_closed_leaf};
use prefsql_tables::ColumnPlace;
use prefsql_values::{CompareOp, List, Memory};
use query_meaning::Block;
use std::alloc::Global;

/// Whether the column is one of the list.
pub(crate) fn is_place_in(places: &[ColumnPlace], place: ColumnPlace) -> bool
    ensures { result ≡ is_place_in places.now place }
{
    for other in places {
        if place.table == other.table && place.column == other.column {
            return true;
        }
    }
    false
}

/// Whether the quality is that of a closed leaf.
fn is_closed_quality(term: &Term, quality: &Quality) -> bool
    ensures { result ≡ is_quality_of (closed_numbers term.now) quality.now }
{
    is_closed_leaf(term, quality.leaf)
}

/// Whether the operator is < or <=.
fn is_upper(op: CompareOp) -> bool
    ensures { result ≡ is_upper op }
{
    match op {
        CompareOp::Lt | CompareOp::Le => true,
        CompareOp::Eq | CompareOp::Ne | CompareOp::Gt | CompareOp::Ge => false,
    }
}

/// Whether the quality of a closed leaf stands on the left and a literal on the right.
fn is_bound(term: &Term, a: &Scalar, b: &Scalar) -> bool
    ensures { result ≡ is_bound (closed_numbers term.now) a.now b.now }
{
    match a {
        Scalar::Quality(quality) => match b {
            Scalar::Literal(_) => is_closed_quality(term, quality),
            Scalar::Column(_) | Scalar::Quality(_) => false,
        },
        Scalar::Column(_) | Scalar::Literal(_) => false,
    }
}

/// Whether the condition bounds the quality of a closed leaf.
#[tactic(auto, using(crate::proofs::SinkReads::closed_reads))]
fn is_closed(term: &Term, cond: &Cond) -> bool
    ensures { result ≡ is_closed term.now cond.now }
{
    match cond {
        Cond::Top(quality) => is_closed_quality(term, quality),
        Cond::Compare(op, a, b) => is_upper(*op) && is_bound(term, a, b),
        Cond::And(_) => false,
        Cond::Or(_) => false,
        Cond::Not(_) => false,
        Cond::Between(..) => false,
        Cond::OneOf(..) => false,
        Cond::IsNull(..) => false,
    }
}

/// Whether the scalar is a literal or a group column.
fn is_group_scalar(groups: &[ColumnPlace], scalar: &Scalar) -> bool
    ensures { result ≡ is_group_scalar groups.now scalar.now }
{
    match scalar {
        Scalar::Column(place) => is_place_in(groups, *place),
        Scalar::Literal(_) => true,
        Scalar::Quality(_) => false,
    }
}

/// Whether each scalar is a literal or a group column.
fn are_group_scalars(groups: &[ColumnPlace], scalars: &[Scalar]) -> bool
    ensures { result ≡ list_all (is_group_scalar groups.now) scalars.now }
{
    for scalar in scalars {
        if !is_group_scalar(groups, scalar) {
            return false;
        }
    }
    true
}

/// Whether both scalars are literals or group columns.
fn are_both(groups: &[ColumnPlace], a: &Scalar, b: &Scalar) -> bool
    ensures { result ≡ (is_group_scalar groups.now a.now && is_group_scalar groups.now b.now) }
{
    is_group_scalar(groups, a) && is_group_scalar(groups, b)
}

/// Whether all three scalars are.
fn are_all_three(groups: &[ColumnPlace], a: &Scalar, low: &Scalar, high: &Scalar) -> bool
    ensures { result ≡ (is_group_scalar groups.now a.now
        && (is_group_scalar groups.now low.now && is_group_scalar groups.now high.now)) }
{
    is_group_scalar(groups, a) && are_both(groups, low, high)
}

/// Whether the scalar and each one of a list are.
fn is_with_list(groups: &[ColumnPlace], a: &Scalar, list: &[Scalar]) -> bool
    ensures { result ≡ (is_group_scalar groups.now a.now
        && list_all (is_group_scalar groups.now) list.now) }
{
    is_group_scalar(groups, a) && are_group_scalars(groups, list)
}

/// Whether the condition holds no quality and reads group columns alone.
#[cycle(groups)]
#[tactic(auto, using(crate::proofs::SinkReads::group_reads))]
fn is_of_groups(groups: &[ColumnPlace], cond: &Cond) -> bool
    ensures { result ≡ is_of_groups groups.now cond.now }
{
    match cond {
        Cond::And(parts) => are_of_groups(groups, parts.as_slice()),
        Cond::Or(parts) => are_of_groups(groups, parts.as_slice()),
        Cond::Not(part) => is_of_groups(groups, part.get()),
        Cond::Compare(_, a, b) => are_both(groups, a, b),
        Cond::Between(_, a, low, high) => are_all_three(groups, a, low, high),
        Cond::OneOf(_, a, list) => is_with_list(groups, a, list.as_slice()),
        Cond::IsNull(_, a) => is_group_scalar(groups, a),
        Cond::Top(_) => false,
    }
}

/// Whether each condition does.
#[cycle(groups)]
#[tactic(auto, using(crate::proofs::SinkReads::group_reads))]
fn are_of_groups(groups: &[ColumnPlace], parts: &[Cond]) -> bool
    ensures { result ≡ list_all (is_of_groups groups.now) parts.now }
{
    for part in parts {
        if !is_of_groups(groups, part) {
            return false;
        }
    }
    true
}

/// Whether the condition at the position may be asked before the preference.
fn is_sunk(block: &Block, conjunct: Conjunct) -> bool
    ensures { result ≡ is_sunk block.now conjunct }
{
    let cond = match conjunct {
        Conjunct::Filter(position) => block.filter.as_slice().get(position as usize),
        Conjunct::Only(position) => block.only.as_slice().get(position as usize),
    };
    match &block.term {
        None => false,
        Some(term) => match cond {
            None => false,
            Some(cond) => is_closed(term, cond) || is_of_groups(block.groups.as_slice(), cond),
        },
    }
}

/// Those of the conditions that go down.
fn sunk(alloc: Global, block: &Block, conjuncts: &[Conjunct]) -> Result<Vec<Conjunct>, Memory>
    ensures { IfOk result (λ found. found.items ≡ filter (is_sunk block.now) conjuncts.now) }
{
    let mut found = Vec::new(alloc);
    for conjunct in conjuncts {
        if is_sunk(block, *conjunct) {
            found.push(*conjunct)?;
        }
    }
    Ok(found)
}

/// Those of the conditions that stay on top.
fn not_sunk(alloc: Global, block: &Block, conjuncts: &[Conjunct]) -> Result<List<Conjunct>, Memory>
    ensures { IfOk result (λ found. found ≡ filter (λ c. not (is_sunk block.now c)) conjuncts.now) }
{
    let mut found = List::new(alloc);
    for conjunct in conjuncts {
        if !is_sunk(block, *conjunct) {
            found.push(*conjunct)?;
        }
    }
    Ok(found)
}

/// The conditions of BUT ONLY that stay above the preference.
pub fn staying(alloc: Global, block: &Block) -> Result<List<Conjunct>, Memory>
    requires { IsValidBlock block.now }
    ensures { IfOk result (λ found. found ≡ staying block.now) }
{
    let onlys = onlys(alloc, block)?;
    not_sunk(alloc, block, onlys.as_slice())
}

/// All conditions that stand below the preference, those of WHERE first.
pub fn lowered(alloc: Global, block: &Block) -> Result<Vec<Conjunct>, Memory>
    requires { IsValidBlock block.now }
    ensures { IfOk result (λ found. found.items ≡ lowered block.now) }
{
    let mut found = wheres(alloc, block)?;
    let onlys = onlys(alloc, block)?;
    let mut sunk = sunk(alloc, block, onlys.as_slice())?;
    found.append(&mut sunk)?;
    Ok(found)
}
