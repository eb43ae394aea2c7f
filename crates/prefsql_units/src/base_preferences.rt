//! What base preferences rank, with their levels and distances.
ghost use Rattle.std.specs.Prelude.{◌≡◌, ◌<◌, length, All, IfOk, IsTrue};
ghost use Rattle.base_prefs.specs.Graph.{ends};
ghost use Rattle.base_prefs.specs.Kind.{has_level, is_explicit};
ghost use Rattle.base_prefs.specs.RankedLaws.{IsRanked};
ghost use Rattle.base_prefs.specs.Sets.{IsGivenSet};
ghost use Rattle.prefsql_values.specs.Limits.{IsLiteralValue};

use base_prefs::{
    BaseFault, BasePref, BaseView, Edge, Ranked, ValueSet, around, between, explicit, highest,
    layered, lowest, neg, pos, pos_neg, pos_pos,
};
use order_laws::Preference;
use prefsql_values::{Cell, List, Memory, Steps, Text, Value};
use std::alloc::Global;
use std::cmp::Ordering;
use std::marker::Brand;
use std::sync::ledger::{Blank, Ledger};
use std::test::Fail;

// The set of these texts.
fn set(alloc: Global, words: &[&str]) -> Result<ValueSet, Memory>
    requires { 0 < length words.now }
    ensures { IfOk result IsGivenSet }
{
    let mut values = List::new(alloc);
    for word in words {
        values.push(Value::Str(Text::of(alloc, word)?))?;
    }
    Ok(ValueSet { values })
}

// The sets of these texts, each of one.
fn singles(alloc: Global, words: &[&str]) -> Result<List<ValueSet>, Memory>
    ensures count { IfOk result (λ sets. length sets ≡ length words.now) }
    ensures given { IfOk result (λ sets. All IsGivenSet sets) }
{
    let mut sets = List::new(alloc);
    for word in words {
        sets.push(set(alloc, &[*word])?)?;
    }
    Ok(sets)
}

// The edges from the upper text to the lower one.
fn edges(alloc: Global, pairs: &[(&str, &str)]) -> Result<List<Edge>, Memory>
    ensures count { IfOk result (λ edges. length edges ≡ length pairs.now) }
    ensures literal { IfOk result (λ edges. All IsLiteralValue (ends edges)) }
{
    let mut edges = List::new(alloc);
    for (upper, lower) in pairs {
        let upper = Value::Str(Text::of(alloc, upper)?);
        let lower = Value::Str(Text::of(alloc, lower)?);
        edges.push(Edge { upper, lower })?;
    }
    Ok(edges)
}

// The preferences by levels that are tried, over the texts a, b, c and d.
#[derive(Clone, Copy)]
enum Tried {
    Pos,
    Neg,
    PosPos,
    PosNeg,
    Middle,
    Last,
    Chain,
}

fn made(alloc: Global, tried: Tried) -> Result<BasePref, BaseFault>
    ensures { IfOk result (λ pref. IsTrue (has_level pref)) }
{
    match tried {
        Tried::Pos => pos(alloc, set(alloc, &["a", "b", "a"])?),
        Tried::Neg => neg(alloc, set(alloc, &["a", "b"])?),
        Tried::PosPos => pos_pos(alloc, set(alloc, &["a"])?, set(alloc, &["b", "b"])?),
        Tried::PosNeg => pos_neg(alloc, set(alloc, &["a"])?, set(alloc, &["b"])?),
        Tried::Middle => layered(alloc, singles(alloc, &["a"])?, singles(alloc, &["b"])?),
        Tried::Last => layered(alloc, singles(alloc, &["a", "b"])?, List::new(alloc)),
        Tried::Chain => explicit(alloc, edges(alloc, &[("a", "b"), ("a", "c"), ("b", "c")])?),
    }
}

// The levels of a, b, c and d, and whether keys alone rank.
fn levels(pref: &BasePref) -> ([Option<u32>; 4], bool)
    requires { IsTrue (has_level pref.now) }
{
    let levels = [
        pref.level(Cell::Str("a")),
        pref.level(Cell::Str("b")),
        pref.level(Cell::Str("c")),
        pref.level(Cell::Str("d")),
    ];
    (levels, pref.is_weak())
}

// The same, by a copy.
fn copied_levels(alloc: Global, tried: Tried) -> Result<([Option<u32>; 4], bool), BaseFault> {
    let pref = made(alloc, tried)?;
    let copy = pref.copy(alloc)?;
    Ok(levels(&copy))
}

#[test]
fn levels_of_texts(rt: HostRuntime) -> Result<(), Fail> {
    for (tried, levels, weak) in [
        (Tried::Pos, [1, 1, 2, 2], true),
        (Tried::Neg, [2, 2, 1, 1], true),
        (Tried::PosPos, [1, 2, 3, 3], true),
        (Tried::PosNeg, [1, 3, 2, 2], true),
        (Tried::Middle, [1, 3, 2, 2], true),
        (Tried::Last, [1, 2, 3, 3], true),
        (Tried::Chain, [1, 2, 3, 4], false),
    ] {
        let wanted = (levels.map(Some), weak);
        assert_eq!(rt; copied_levels(rt.alloc(), tried)?, wanted);
    }
    Ok(())
}

// Whether the graph's value at the one place is above that at the other.
fn above(pref: &BasePref, upper: usize, lower: usize) -> Option<bool> {
    match pref.view() {
        BaseView::Explicit(values) => {
            if upper < values.len() && lower < values.len() {
                Some(pref.graph_better(upper, lower))
            } else {
                None
            }
        }
        _ => None,
    }
}

#[test]
fn paths_join(rt: HostRuntime) -> Result<(), Fail> {
    let pref = explicit(rt.alloc(), edges(rt.alloc(), &[("a", "b"), ("b", "c")])?)?;
    let above = [above(&pref, 0, 2), above(&pref, 2, 0), above(&pref, 0, 3)];
    assert_eq!(rt; above, [Some(true), Some(false), None]);
    Ok(())
}

#[test]
fn distances_from_the_bounds(rt: HostRuntime) -> Result<(), Fail> {
    let inside = between(10, 20)?;
    let near = around(999_999_999_999_999_999);
    let distances = [
        inside.distance(Cell::Num(5)),
        inside.distance(Cell::Num(15)),
        inside.distance(Cell::Num(23)),
        near.distance(Cell::Num(-999_999_999_999_999_999)),
        lowest().distance(Cell::Num(7)),
    ];
    let wanted = [
        Some(5),
        Some(0),
        Some(3),
        Some(1_999_999_999_999_999_998),
        None,
    ];
    assert_eq!(rt; distances, wanted);
    Ok(())
}

// Whether the first value is better, whether the second is, whether they are the same, and how
// their keys compare.
fn ranked<L: Ledger>(
    pref: Ranked<'_>,
    first: &Value,
    second: &Value,
    blank: Blank,
) -> (bool, bool, bool, Ordering)
    requires name { blank.name ≡ L.name }
    requires parts { blank.parts ≡ L.parts }
    requires backed { 0 < L.parts }
    requires first_valid { IsRanked pref.base.now pref.trivial first.now }
    requires second_valid { IsRanked pref.base.now pref.trivial second.now }
{
    let mut steps = Steps::<L>::new(blank);
    (
        pref.better(first, second, &mut steps),
        pref.better(second, first, &mut steps),
        pref.same(first, second),
        pref.key_cmp(first, second),
    )
}

// The same of two texts.
fn ranked_texts(
    alloc: Global,
    pref: Ranked<'_>,
    first: &str,
    second: &str,
) -> Result<(bool, bool, bool, Ordering), Memory>
    requires ranks { IsTrue (has_level pref.base.now) }
    requires trivial { IsTrue (is_explicit pref.base.now) → IsTrue pref.trivial }
{
    let first = Value::Str(Text::of(alloc, first)?);
    let second = Value::Str(Text::of(alloc, second)?);
    let ranks = ranked::<Brand>(pref, &first, &second, Blank::new(1));
    Ok(ranks)
}

// The same of two texts under one that is tried, with trivial substitutable values.
fn ranked_by(
    alloc: Global,
    tried: Tried,
    first: &str,
    second: &str,
) -> Result<(bool, bool, bool, Ordering), BaseFault> {
    let base = made(alloc, tried)?;
    let pref = Ranked {
        base: &base,
        trivial: true,
    };
    Ok(ranked_texts(alloc, pref, first, second)?)
}

#[test]
fn texts_are_ranked(rt: HostRuntime) -> Result<(), Fail> {
    for (tried, first, second, wanted) in [
        (Tried::Chain, "a", "c", (true, false, false, Ordering::Less)),
        (
            Tried::Chain,
            "x",
            "c",
            (false, true, false, Ordering::Greater),
        ),
        (
            Tried::Chain,
            "x",
            "x",
            (false, false, true, Ordering::Equal),
        ),
        (Tried::Pos, "c", "d", (false, false, false, Ordering::Equal)),
    ] {
        assert_eq!(rt; ranked_by(rt.alloc(), tried, first, second)?, wanted);
    }
    Ok(())
}

#[test]
fn numbers_are_ranked(rt: HostRuntime) {
    let (three, seven) = (Value::Num(3), Value::Num(7));
    let (base, trivial) = (&highest(), false);
    let ranks = ranked::<Brand>(Ranked { base, trivial }, &three, &seven, Blank::new(1));
    assert_eq!(rt; ranks, (false, true, false, Ordering::Greater));
}
