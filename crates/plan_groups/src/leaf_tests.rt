//! How rows stand to each other by a leaf, from numbers that are computed once.
ghost use Rattle.std.specs.Prelude.{◌≡◌, All, IfOk, IsTrue, false, map, slice_index_or};
ghost use Rattle.std.specs.Ordering.{int_cmp};
ghost use Rattle.prefsql_values.specs.Value.{value_of};
ghost use Rattle.base_prefs.specs.Graph.{graph_values};
ghost use Rattle.base_prefs.specs.Kind.{edges_of, is_explicit};
ghost use Rattle.base_prefs.specs.Values.{place_of};
ghost use Rattle.plan_groups.specs.Firsts.{first_equal, values_in};
ghost use Rattle.plan_groups.specs.Outcomes.{TellsLeaf, graph_outcome, is_graph_better, leaf_outcome, outcome_by, share};
ghost use Rattle.pref_terms.specs.Fits.{LeafFits};

use base_prefs::{BasePref, BaseView};
use pref_terms::{BoundTerm, Leaf};
use prefsql_tables::{Combo, cell_in_sight};
use prefsql_values::{Cell, Memory, Value, not_distinct};
use std::alloc::Global;
use std::cmp::Ordering;
use value_index::ValueIndex;

/// What is compared of two rows at a leaf.
#[derive(Drop)]
pub(crate) enum LeafTest<'t> {
    /// Their keys.
    Keys,
    /// Their keys, where of two equal ones only those of equal values are the same. Of each row
    /// there is the place of the first one with its value.
    Values(Vec<usize>),
    /// The places of their values in the list of a graph, and for what is the same those of the
    /// first rows with their values; and whether the leaf is turned.
    Graph(&'t BasePref, Vec<usize>, Vec<usize>, bool),
}

impl LeafTest<'_> {
    /// How the row at the place `a` stands to that at `b`, where `x` and `y` are their keys, with
    /// their signs changed where the leaf is turned: before it where it is better, equal where it is
    /// the same, else behind it.
    pub fn outcome(&self, x: i128, y: i128, a: usize, b: usize) -> Ordering
        ensures { result ≡ leaf_outcome self.now x y a b }
    {
        match self {
            LeafTest::Keys => key_order(x, y),
            LeafTest::Values(firsts) => match x.cmp(&y) {
                Ordering::Equal => tie(share(firsts.as_slice(), a, b)),
                ordering => ordering,
            },
            LeafTest::Graph(base, places, firsts, turned) => {
                let (places, firsts) = (places.as_slice(), firsts.as_slice());
                if *turned {
                    graph_outcome(base, places, firsts, b, a)
                } else {
                    graph_outcome(base, places, firsts, a, b)
                }
            }
        }
    }
}

/// How the row at the place `a` stands to that at `b` by a graph.
fn graph_outcome(
    base: &BasePref,
    places: &[usize],
    firsts: &[usize],
    a: usize,
    b: usize,
) -> Ordering
    ensures { result ≡ graph_outcome base.now places.now firsts.now a b }
{
    if is_graph_better(base, number_at(places, a), number_at(places, b)) {
        Ordering::Less
    } else {
        tie(share(firsts, a, b))
    }
}

/// The order of two keys.
pub(crate) fn key_order(x: i128, y: i128) -> Ordering
    ensures { result ≡ int_cmp x y }
{
    if y < x {
        Ordering::Greater
    } else if x < y {
        Ordering::Less
    } else {
        Ordering::Equal
    }
}

/// What is to be compared at the leaf, with the numbers of all rows. It is turned below an odd number
/// of duals.
pub(crate) fn leaf_test<'t>(
    alloc: Global,
    bound: &BoundTerm<'t>,
    leaf: &'t Leaf,
    turned: bool,
    combos: &[Combo],
) -> Result<LeafTest<'t>, Memory>
    requires { All (λ combo.
        LeafFits bound.now.tables.now bound.now.from.now bound.now.first combo.rows leaf.now)
        combos.now }
    ensures { IfOk result (TellsLeaf bound.now combos.now turned leaf.now) }
{
    bound.tables.keeps_limits();
    if !leaf.base.is_weak() {
        return graph_test(alloc, bound, leaf, turned, combos);
    }
    if !leaf.trivial {
        return Ok(LeafTest::Keys);
    }
    let cells = cells_of(alloc, bound, leaf, combos)?;
    Ok(LeafTest::Values(firsts_of(alloc, cells.as_slice())?))
}

/// What is to be compared at a leaf of EXPLICIT.
fn graph_test<'t>(
    alloc: Global,
    bound: &BoundTerm<'t>,
    leaf: &'t Leaf,
    turned: bool,
    combos: &[Combo],
) -> Result<LeafTest<'t>, Memory>
    requires explicit { IsTrue (is_explicit leaf.now.base) }
    requires fits { All (λ combo.
        LeafFits bound.now.tables.now bound.now.from.now bound.now.first combo.rows leaf.now)
        combos.now }
    ensures { IfOk result (TellsLeaf bound.now combos.now turned leaf.now) }
{
    bound.tables.keeps_limits();
    let cells = cells_of(alloc, bound, leaf, combos)?;
    let places = graph_places(alloc, &leaf.base, cells.as_slice())?;
    let firsts = firsts_of(alloc, cells.as_slice())?;
    Ok(LeafTest::Graph(&leaf.base, places, firsts, turned))
}

/// The cells of the rows in the column of the leaf.
fn cells_of<'t>(
    alloc: Global,
    bound: &BoundTerm<'t>,
    leaf: &Leaf,
    combos: &[Combo],
) -> Result<Vec<Cell<'t>>, Memory>
    requires { All (λ combo.
        LeafFits bound.now.tables.now bound.now.from.now bound.now.first combo.rows leaf.now)
        combos.now }
    ensures { IfOk result
        (λ cells. map value_of cells.items ≡ values_in bound.now combos.now leaf.now.place) }
{
    let mut cells = Vec::with_capacity(alloc, combos.len())?;
    for combo in combos {
        let cell = cell_in_sight(leaf.place, bound.tables, bound.from, bound.first, combo);
        cells.push(cell)?;
    }
    Ok(cells)
}

/// Of each cell, the place of the first one that is equal.
fn firsts_of(alloc: Global, cells: &[Cell<'_>]) -> Result<Vec<usize>, Memory>
    ensures { IfOk result
        (λ firsts. firsts.items
        ≡ map (first_equal (map value_of cells.now)) (map value_of cells.now)) }
{
    let index = ValueIndex::of(alloc, cells)?;
    let mut firsts = Vec::with_capacity(alloc, cells.len())?;
    for cell in cells {
        firsts.push(number_at(index.places(*cell), 0))?;
    }
    Ok(firsts)
}

/// The places of the cells in the list of the graph of an EXPLICIT preference.
fn graph_places(alloc: Global, base: &BasePref, cells: &[Cell<'_>]) -> Result<Vec<usize>, Memory>
    requires { IsTrue (is_explicit base.now) }
    ensures { IfOk result
        (λ places. places.items
        ≡ map (place_of (graph_values (edges_of base.now))) (map value_of cells.now)) }
{
    match base.view() {
        BaseView::Explicit(values) => places_among(alloc, values, cells),
        _ => Ok(Vec::new(alloc)),
    }
}

/// The places of the cells among the values.
fn places_among(alloc: Global, values: &[Value], cells: &[Cell<'_>]) -> Result<Vec<usize>, Memory>
    ensures { IfOk result
        (λ places. places.items ≡ map (place_of values.now) (map value_of cells.now)) }
{
    let mut places = Vec::with_capacity(alloc, cells.len())?;
    for cell in cells {
        places.push(position(values, *cell))?;
    }
    Ok(places)
}

/// The place of the first of the values that is the value of the cell, or how many values there
/// are.
fn position(values: &[Value], cell: Cell<'_>) -> usize
    ensures { result ≡ place_of values.now (value_of cell.entry) }
{
    let mut at = 0;
    for value in values {
        if not_distinct(value.cell(), cell) {
            return at;
        }
        at += 1;
    }
    at
}

/// Whether by the graph of an EXPLICIT preference the value at the first place of its list is
/// better. A place past the list is that of a value outside.
fn is_graph_better(base: &BasePref, upper: usize, lower: usize) -> bool
    ensures { result ≡ is_graph_better base.now upper lower }
{
    if base.is_weak() {
        return false;
    }
    is_above_by(base, upper, lower)
}

/// The same for an EXPLICIT preference.
fn is_above_by(base: &BasePref, upper: usize, lower: usize) -> bool
    requires { IsTrue (is_explicit base.now) }
    ensures { result ≡ is_graph_better base.now upper lower }
{
    match base.view() {
        BaseView::Explicit(values) => {
            upper < values.len() && (lower >= values.len() || base.graph_better(upper, lower))
        }
        _ => false,
    }
}

/// Whether the numbers at both places are one.
fn share(numbers: &[usize], a: usize, b: usize) -> bool
    ensures { result ≡ share numbers.now a b }
{
    number_at(numbers, a) == number_at(numbers, b)
}

/// The number at the place, or 0 past the end.
fn number_at(numbers: &[usize], place: usize) -> usize
    ensures { result ≡ slice_index_or numbers.now place 0 }
{
    match numbers.get(place) {
        Some(number) => *number,
        None => 0,
    }
}

/// Equal for rows that are the same, else behind.
fn tie(same: bool) -> Ordering
    ensures { result ≡ outcome_by false same }
{
    if same {
        Ordering::Equal
    } else {
        Ordering::Greater
    }
}
