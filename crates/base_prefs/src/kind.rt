//! What a base preference is, and how it judges values.
ghost use Rattle.std.specs.Prelude.{◌≡◌, ◌↔◌, false, not, IsTrue, IsSome, IfSome, IfOk};
ghost use Rattle.base_prefs.specs.Kind.{has_level};
ghost use Rattle.prefsql_values.specs.Value.{value_of};

use crate::edge::ValueSet;
use crate::graph::Graph;
use crate::judge::{contains, distance_from, distance_to, layer, number};
use prefsql_values::{Cell, List, Memory};
use std::alloc::Global;
use std::marker::Model;
use std::rc::Rc;

/// The ten kinds of base preferences, with each value of a set once.
#[derive(Debug, Drop)]
pub enum Kind {
    Pos(ValueSet),
    Neg(ValueSet),
    PosPos(ValueSet, ValueSet),
    PosNeg(ValueSet, ValueSet),
    Layered(List<ValueSet>, List<ValueSet>),
    Explicit(Graph),
    Around(i64),
    Between(i64, i64),
    Lowest,
    Highest,
}

/// A base preference (Kießling, VLDB 2002): a strict order of the values of one column.
///
/// `pos`, `neg`, `pos_pos`, `pos_neg`, `layered`, `explicit`, `around`, `between`, `lowest` and
/// `highest` make one.
#[derive(Debug, Drop)]
pub struct BasePref {
    stored: Stored,
}

/// Where a kind stands: alone where it names no values, else shared among the copies of the
/// preference.
#[derive(Debug, Drop)]
enum Stored {
    Alone(Kind),
    Shared(Rc<Kind>),
}

impl Model for BasePref {
    ghost use Rattle.base_prefs.specs.declared.kind.Kind.{Kind};
    ghost use Rattle.base_prefs.specs.KindLimits.{IsSound};
    ghost use Rattle.base_prefs.specs.Stored.{stored_kind, IsRightlyAlone};

    ghost Value = { Kind };

    ghost view = { λ pref. stored_kind pref.stored };

    ghost invariant = { λ pref. IsSound (stored_kind pref.stored) × IsRightlyAlone pref.stored };
}

impl BasePref {
    ghost use Rattle.base_prefs.specs.Kind.{IsJudged, level_of, distance_of, has_distance, key_of, better_of, is_explicit, IsBetter};
    ghost use Rattle.base_prefs.specs.KindLimits.{IsSound};
    ghost use Rattle.base_prefs.specs.Level.{IsLevel};

    /// A kind that names no values.
    pub(crate) fn of(kind: Kind) -> BasePref
        requires sound { IsSound kind }
        requires alone { has_level kind ≡ false }
        ensures { result ≡ kind }
    {
        BasePref {
            stored: Stored::Alone(kind),
        }
    }

    /// A kind that copies are to share, or want of memory.
    pub(crate) fn shared(alloc: Global, kind: Kind) -> Result<BasePref, Memory>
        requires { IsSound kind }
        ensures { IfOk result (λ pref. pref ≡ kind) }
    {
        match Rc::new(alloc, kind) {
            Ok(kind) => Ok(BasePref {
                stored: Stored::Shared(kind),
            }),
            Err(_) => Err(Memory),
        }
    }

    /// An equal preference, or want of memory. What it names is not copied, but shared.
    pub fn copy(&self, alloc: Global) -> Result<BasePref, Memory>
        ensures { IfOk result (λ copied. copied ≡ self.now) }
    {
        let _memory = alloc;
        let stored = match &self.stored {
            Stored::Alone(kind) => Stored::Alone(copy_alone(kind)),
            Stored::Shared(kind) => Stored::Shared(kind.clone()?),
        };
        Ok(BasePref { stored })
    }

    pub(crate) fn kind(&self) -> &Kind
        ensures same { result.now ≡ self.now }
        ensures sound { IsSound self.now }
    {
        match &self.stored {
            Stored::Alone(kind) => kind,
            Stored::Shared(kind) => kind.as_ref(),
        }
    }

    /// Every base preference keeps these limits: its values can be written in a script, its sets
    /// are not empty and share none, each value stands in a set once, and there are at most 256 of
    /// them, or 16 in a graph. A law, with no effect.
    pub fn keeps_limits(&self)
        ensures { IsSound self.now }
    {
        let _kind = self.kind();
    }

    /// The level of a value, from 1 for the best ones; None for AROUND, BETWEEN, LOWEST and
    /// HIGHEST, which have none.
    ///
    /// Needs a cell that is not NULL, and at those four kinds a number in plus and minus 10^36. The
    /// levels are this project's own.
    pub fn level(&self, cell: Cell<'_>) -> Option<u32>
        requires { IsJudged self.now (value_of cell) }
        ensures level { result ≡ level_of self.now (value_of cell.entry) }
        ensures meaning { IfSome result (IsLevel self.now (value_of cell.entry)) }
        ensures some { IsSome result ↔ IsTrue (has_level self.now) }
    {
        let _sound = self.kind();
        self.rank(cell)
    }

    /// The level.
    fn rank(&self, cell: Cell<'_>) -> Option<u32>
        ensures { result ≡ level_of self.now (value_of cell.entry) }
    {
        match self.kind() {
            Kind::Pos(set) => Some(if contains(set.values.as_slice(), cell) {
                1
            } else {
                2
            }),
            Kind::Neg(set) => Some(if contains(set.values.as_slice(), cell) {
                2
            } else {
                1
            }),
            Kind::PosPos(first, second) => Some(if contains(first.values.as_slice(), cell) {
                1
            } else if contains(second.values.as_slice(), cell) {
                2
            } else {
                3
            }),
            Kind::PosNeg(good, bad) => Some(if contains(good.values.as_slice(), cell) {
                1
            } else if contains(bad.values.as_slice(), cell) {
                3
            } else {
                2
            }),
            Kind::Layered(before, after) => Some(layer(before.as_slice(), after.as_slice(), cell)),
            Kind::Explicit(graph) => Some(graph.level(cell)),
            Kind::Around(_) | Kind::Between(_, _) | Kind::Lowest | Kind::Highest => None,
        }
    }

    /// How far a value is from the center of AROUND, or from the bounds of BETWEEN: 0 inside them.
    /// None for all other kinds.
    ///
    /// Needs a cell that is not NULL, and at AROUND, BETWEEN, LOWEST and HIGHEST a number in plus
    /// and minus 10^36.
    pub fn distance(&self, cell: Cell<'_>) -> Option<i128>
        requires { IsJudged self.now (value_of cell) }
        ensures distance { result ≡ distance_of self.now (value_of cell.entry) }
        ensures some { IsSome result ↔ IsTrue (has_distance self.now) }
    {
        match self.kind() {
            Kind::Around(center) => Some(distance_from(*center, number(cell))),
            Kind::Between(low, up) => Some(distance_to(*low, *up, number(cell))),
            _ => None,
        }
    }

    /// Whether a smaller key is always better: false for EXPLICIT alone.
    pub fn is_weak(&self) -> bool
        ensures { result ≡ not (is_explicit self.now) }
    {
        !matches!(self.kind(), Kind::Explicit(_))
    }

    /// What a value is ranked by.
    pub(crate) fn key(&self, cell: Cell<'_>) -> i128
        requires { IsJudged self.now (value_of cell) }
        ensures { result ≡ key_of self.now (value_of cell.entry) }
    {
        match self.kind() {
            Kind::Around(center) => distance_from(*center, number(cell)),
            Kind::Between(low, up) => distance_to(*low, *up, number(cell)),
            Kind::Lowest => number(cell),
            Kind::Highest => -number(cell),
            _ => match self.rank(cell) {
                Some(level) => i128::from(level),
                None => 0,
            },
        }
    }

    /// Whether the value of `y` is better than that of `x`.
    pub(crate) fn better(&self, y: Cell<'_>, x: Cell<'_>) -> bool
        requires y_judged { IsJudged self.now (value_of y) }
        requires x_judged { IsJudged self.now (value_of x) }
        ensures test { result ≡ better_of self.now (value_of y.entry) (value_of x.entry) }
        ensures meaning { IsTrue result ↔ IsBetter self.now (value_of y.entry) (value_of x.entry) }
    {
        let _sound = self.kind();
        self.test(y, x)
    }

    fn test(&self, y: Cell<'_>, x: Cell<'_>) -> bool
        requires y_judged { IsJudged self.now (value_of y) }
        requires x_judged { IsJudged self.now (value_of x) }
        ensures { result ≡ better_of self.now (value_of y.entry) (value_of x.entry) }
    {
        match self.kind() {
            Kind::Explicit(graph) => graph.better(y, x),
            _ => self.key(y) < self.key(x),
        }
    }
}

/// A kind that names no values, again.
fn copy_alone(kind: &Kind) -> Kind
    requires { has_level kind.now ≡ false }
    ensures { result ≡ kind.now }
{
    match kind {
        Kind::Around(center) => Kind::Around(*center),
        Kind::Between(low, up) => Kind::Between(*low, *up),
        Kind::Lowest => Kind::Lowest,
        Kind::Highest => Kind::Highest,
        _ => unreachable!(),
    }
}
