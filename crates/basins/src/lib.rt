// Which basins are wet, by the indexed half-edges: the lowest, the lowest that a search has not seen, and the side of a lone reach that is marked.
// The functions with a `requires` are for the crates above, which have checked it.

#![tactic(auto)]

ghost use Rattle.std.specs.Prelude.{◌≡◌, ◌&&◌, ◌≤◌, ◌<◌, length, set};
ghost use Rattle.network.specs.Networks.{is_wet};
ghost use Rattle.basins.specs.Graphs.{net_on};
ghost use Rattle.distances.specs.Distances.{noted};
ghost use Rattle.basins.specs.Wet.{Tabled, any_basin, is_unnoted, Lowest, is_other, side_note, OthersNoted, FarSideNoted};

use distances::UNREACHED;
use half_edges::{Graph, NO_HALF};
use tables::KIND_TWO_WAY;

// Whether basin v is wet: whether a reach in service has a half-edge there.
pub fn is_wet(graph: &Graph, kinds: &[u8], v: usize) -> bool
    requires kinds_len { length kinds.now ≡ length graph.now.a.now }
    requires v_lt_n { v < graph.now.basins }
    ensures { result ≡ is_wet (net_on graph.now kinds.now) v }
{
    let mut h = graph.head[v];
    while h != NO_HALF {
        if kinds[h as usize / 2] <= KIND_TWO_WAY {
            return true;
        }
        h = graph.next[h as usize];
    }
    false
}

// Whether basin v is wet and not noted as reached.
fn is_left(graph: &Graph, kinds: &[u8], seen: &[u16], v: usize) -> bool
    requires kinds_len { length kinds.now ≡ length graph.now.a.now }
    requires n_in_bounds { graph.now.basins ≤ length seen.now }
    requires v_lt_n { v < graph.now.basins }
    ensures { result ≡ is_wet (net_on graph.now kinds.now) v && is_unnoted seen.now v }
{
    if seen[v] < UNREACHED {
        return false;
    }
    is_wet(graph, kinds, v)
}

// The lowest wet basin, or None if all are dry.
pub fn lowest_wet(graph: &Graph, kinds: &[u8]) -> Option<usize>
    requires kinds_len { length kinds.now ≡ length graph.now.a.now }
    ensures { Lowest (net_on graph.now kinds.now) any_basin result }
{
    (0..graph.basins).find(|&v| is_wet(graph, kinds, v))
}

// The lowest wet basin that is not noted as reached, or None if there is none.
pub fn lowest_unseen(graph: &Graph, kinds: &[u8], seen: &[u16]) -> Option<usize>
    requires kinds_len { length kinds.now ≡ length graph.now.a.now }
    requires n_in_bounds { graph.now.basins ≤ length seen.now }
    ensures { Lowest (net_on graph.now kinds.now) (is_unnoted seen.now) result }
{
    (0..graph.basins).find(|&v| is_left(graph, kinds, seen, v))
}

// Whether basin v is noted as reached. Past the end of the row it counts as noted.
fn is_noted(seen: &[u16], v: usize) -> bool
    ensures { result ≡ noted seen.now v }
{
    if v < seen.len() {
        return seen[v] < UNREACHED;
    }
    true
}

// Notes basin v as reached if it is wet and was noted otherwise than x says, and else as not reached.
fn note_at(graph: &Graph, kinds: &[u8], v: usize, x: bool, seen: &mut [u16])
    requires kinds_len { length kinds.now ≡ length graph.now.a.now }
    requires n_in_bounds { graph.now.basins ≤ length seen.old }
    requires v_lt_n { v < graph.now.basins }
    ensures { seen.new ≡ set seen.old v
        (side_note (is_other (net_on graph.now kinds.now) x seen.old v)) }
{
    if is_noted(seen, v) == x {
        seen[v] = UNREACHED;
        return;
    }
    if !is_wet(graph, kinds, v) {
        seen[v] = UNREACHED;
        return;
    }
    seen[v] = 0;
}

// Does so at each basin.
fn note_others(graph: &Graph, kinds: &[u8], x: bool, seen: &mut [u16])
    requires kinds_len { length kinds.now ≡ length graph.now.a.now }
    requires n_in_bounds { graph.now.basins ≤ length seen.old }
    ensures { OthersNoted (net_on graph.now kinds.now) x seen.old seen.new }
{
    for v in 0..graph.basins {
        note_at(graph, kinds, v, x, seen);
    }
}

// Notes as reached each wet basin that was noted otherwise than the lowest wet basin, and no other. Where all are dry none is noted, whatever x is.
pub fn note_side(graph: &Graph, kinds: &[u8], seen: &mut [u16])
    requires kinds_len { length kinds.now ≡ length graph.now.a.now }
    requires n_in_bounds { graph.now.basins ≤ length seen.old }
    ensures { FarSideNoted (net_on graph.now kinds.now) seen.old seen.new }
{
    let low = lowest_wet(graph, kinds).unwrap_or(0);
    let x = is_noted(seen, low);
    note_others(graph, kinds, x, seen);
}
