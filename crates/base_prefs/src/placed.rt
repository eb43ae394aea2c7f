//! The edges of a graph by the places of their values, so that no later step looks a value up.
ghost use Rattle.std.specs.Prelude.{◌≡◌, ◌<◌, length, map, IfOk, slice_index_or};
ghost use Rattle.prefsql_values.specs.declared.value.Value.TheVariants.{Null};
ghost use Rattle.base_prefs.specs.Graph.{graph_values, has_edge};
ghost use Rattle.base_prefs.specs.Table.{placed, has_placed};

use crate::edge::Edge;
use crate::judge::position;
use prefsql_values::{List, Memory, Value};
use std::alloc::Global;

/// An edge, by the places of its values in the list of the graph's values.
#[derive(Clone, Copy, Debug)]
pub struct PlacedEdge {
    pub upper: usize,
    pub lower: usize,
}

/// The edge by the places of its values.
fn placed(values: &[Value], edge: &Edge) -> PlacedEdge
    ensures { result ≡ placed values.now edge.now }
{
    PlacedEdge {
        upper: position(values, edge.upper.cell()),
        lower: position(values, edge.lower.cell()),
    }
}

/// The edges by the places of their values.
pub fn placed_edges(
    alloc: Global,
    edges: &[Edge],
    values: &[Value],
) -> Result<List<PlacedEdge>, Memory>
    ensures { IfOk result (λ all. all ≡ map (placed values.now) edges.now) }
{
    let mut all = List::new(alloc);
    for edge in edges {
        all.push(placed(values, edge))?;
    }
    Ok(all)
}

/// Whether an edge leads from the one place to the other.
fn has_placed(places: &[PlacedEdge], upper: usize, lower: usize) -> bool
    ensures { result ≡ has_placed places.now upper lower }
{
    for edge in places {
        if edge.upper == upper && edge.lower == lower {
            return true;
        }
    }
    false
}

/// Whether there is the edge between the values at these places.
pub fn has_edge(
    edges: &[Edge],
    values: &[Value],
    places: &[PlacedEdge],
    upper: usize,
    lower: usize,
) -> bool
    requires listed { values.now ≡ graph_values edges.now }
    requires placed { places.now ≡ map (placed values.now) edges.now }
    requires upper_there { upper < length values.now }
    requires lower_there { lower < length values.now }
    ensures { result ≡ has_edge edges.now (slice_index_or values.now upper Null)
        (slice_index_or values.now lower Null) }
{
    let _edges = edges;
    let _values = values;
    has_placed(places, upper, lower)
}
