//! Which base preferences are made, and why others are refused.
ghost use Rattle.std.specs.Prelude.{◌<◌, length, IfOk};
ghost use Rattle.base_prefs.specs.Sets.{IsGivenSet};

use base_prefs::{BaseFault, BasePref, BaseView, Edge, ValueSet, between, explicit, pos, pos_pos};
use prefsql_values::{List, Memory, Text, Value};
use std::alloc::Global;
use std::test::Fail;

/// A set of this many ones.
fn ones(alloc: Global, count: u32) -> Result<ValueSet, Memory>
    requires { 0 < count }
    ensures { IfOk result IsGivenSet }
{
    let mut values = List::new(alloc);
    values.push(Value::Num(1))?;
    for _ in 1..count {
        values.push(Value::Num(1))?;
    }
    Ok(ValueSet { values })
}

/// The set of this text alone.
fn single(alloc: Global, word: &str) -> Result<ValueSet, Memory>
    ensures { IfOk result IsGivenSet }
{
    let mut values = List::new(alloc);
    values.push(Value::Str(Text::of(alloc, word)?))?;
    Ok(ValueSet { values })
}

/// EXPLICIT of one edge.
fn one_edge(alloc: Global, upper: &str, lower: &str) -> Result<BasePref, BaseFault> {
    let upper = Value::Str(Text::of(alloc, upper)?);
    let lower = Value::Str(Text::of(alloc, lower)?);
    let mut edges = List::new(alloc);
    edges.push(Edge { upper, lower })?;
    explicit(alloc, edges)
}

/// The preferences that are tried.
#[derive(Clone, Copy, Debug)]
enum Tried {
    OverItself,
    TwiceRed,
    ManyOnes,
    MostOnes,
    FiveToFour,
    FourToFour,
}

fn made(alloc: Global, tried: Tried) -> Result<BasePref, BaseFault> {
    match tried {
        Tried::OverItself => one_edge(alloc, "a", "a"),
        Tried::TwiceRed => pos_pos(alloc, single(alloc, "red")?, single(alloc, "red")?),
        Tried::ManyOnes => pos(alloc, ones(alloc, 257)?),
        Tried::MostOnes => pos(alloc, ones(alloc, 256)?),
        Tried::FiveToFour => between(5, 4),
        Tried::FourToFour => between(4, 4),
    }
}

/// What comes of a preference: its fault, the count of its set, or its bounds.
#[derive(Clone, Copy, Debug, PartialEq, Eq)]
enum Seen {
    TooManyValues,
    Overlap,
    Cycle,
    LowAboveUp,
    Set(usize),
    Bounds(i64, i64),
    Another,
}

fn outcome(made: Result<BasePref, BaseFault>) -> Seen {
    match made {
        Err(BaseFault::TooManyValues) => Seen::TooManyValues,
        Err(BaseFault::Overlap) => Seen::Overlap,
        Err(BaseFault::Cycle) => Seen::Cycle,
        Err(BaseFault::LowAboveUp) => Seen::LowAboveUp,
        Err(BaseFault::Memory) => Seen::Another,
        Ok(pref) => match pref.view() {
            BaseView::Pos(values) => Seen::Set(values.len()),
            BaseView::Between(low, up) => Seen::Bounds(low, up),
            _ => Seen::Another,
        },
    }
}

#[test]
fn base_preferences_are_made_or_refused(rt: HostRuntime) -> Result<(), Fail> {
    for (tried, want) in [
        (Tried::OverItself, Seen::Cycle),
        (Tried::TwiceRed, Seen::Overlap),
        (Tried::ManyOnes, Seen::TooManyValues),
        (Tried::MostOnes, Seen::Set(1)),
        (Tried::FiveToFour, Seen::LowAboveUp),
        (Tried::FourToFour, Seen::Bounds(4, 4)),
    ] {
        assert_eq!(rt; outcome(made(rt.alloc(), tried)), want, "{tried:?}");
    }
    Ok(())
}
