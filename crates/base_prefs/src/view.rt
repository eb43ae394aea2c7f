//! What a base preference shows of itself.
ghost use Rattle.std.specs.Prelude.{◌≡◌, ◌↔◌, ◌<◌, length, IsTrue};
ghost use Rattle.base_prefs.specs.Graph.{graph_values};

use crate::edge::ValueSet;
use crate::kind::{BasePref, Kind};
use prefsql_values::Value;

/// The kind of a base preference and its arguments, borrowed.
///
/// A set has each value once, at its first place. `Explicit` has the values of the graph in the
/// order of their first writing; which of them is above which, `graph_better` tells.
#[derive(Clone, Copy, Debug)]
pub enum BaseView<'a> {
    Pos(&'a [Value]),
    Neg(&'a [Value]),
    PosPos(&'a [Value], &'a [Value]),
    PosNeg(&'a [Value], &'a [Value]),
    Layered(&'a [ValueSet], &'a [ValueSet]),
    Explicit(&'a [Value]),
    Around(i64),
    Between(i64, i64),
    Lowest,
    Highest,
}

impl BasePref {
    ghost use Rattle.base_prefs.specs.Kind.{edges_of, is_explicit};
    ghost use Rattle.base_prefs.specs.View.{IsViewOf, IsKindOf, IsAboveAt, is_above_at};

    /// The kind and its arguments. What is shown determines the kind, but for the edges of a graph.
    #[tactic(auto, using(crate::proofs::ShownLaws::kind_shown))]
    pub fn view(&self) -> BaseView<'_>
        ensures shown { IsViewOf result self.now }
        ensures kind { IsKindOf result self.now }
    {
        self.shown()
    }

    /// The same, without what it determines.
    fn shown(&self) -> BaseView<'_>
        ensures { IsViewOf result self.now }
    {
        match self.kind() {
            Kind::Pos(set) => BaseView::Pos(set.values.as_slice()),
            Kind::Neg(set) => BaseView::Neg(set.values.as_slice()),
            Kind::PosPos(first, second) => {
                BaseView::PosPos(first.values.as_slice(), second.values.as_slice())
            }
            Kind::PosNeg(good, bad) => {
                BaseView::PosNeg(good.values.as_slice(), bad.values.as_slice())
            }
            Kind::Layered(before, after) => BaseView::Layered(before.as_slice(), after.as_slice()),
            Kind::Explicit(graph) => BaseView::Explicit(graph.values.as_slice()),
            Kind::Around(center) => BaseView::Around(*center),
            Kind::Between(low, up) => BaseView::Between(*low, *up),
            Kind::Lowest => BaseView::Lowest,
            Kind::Highest => BaseView::Highest,
        }
    }

    /// Whether a path of at least one edge leads from the value at the place `upper` of the view's
    /// list down to that at the place `lower`.
    ///
    /// Needs an EXPLICIT preference, and both places within that list.
    pub fn graph_better(&self, upper: usize, lower: usize) -> bool
        requires explicit { IsTrue (is_explicit self.now) }
        requires upper_there { upper < length (graph_values (edges_of self.now)) }
        requires lower_there { lower < length (graph_values (edges_of self.now)) }
        ensures test { result ≡ is_above_at (edges_of self.now) upper lower }
        ensures meaning { IsTrue result ↔ IsAboveAt (edges_of self.now) upper lower }
    {
        self.tells_above(upper, lower)
    }

    /// The same, said as a path alone.
    fn tells_above(&self, upper: usize, lower: usize) -> bool
        requires explicit { IsTrue (is_explicit self.now) }
        requires upper_there { upper < length (graph_values (edges_of self.now)) }
        requires lower_there { lower < length (graph_values (edges_of self.now)) }
        ensures { IsTrue result ↔ IsAboveAt (edges_of self.now) upper lower }
    {
        match self.kind() {
            Kind::Explicit(graph) => graph.is_above(upper, lower),
            _ => false,
        }
    }
}
