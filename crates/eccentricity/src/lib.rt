// How far the water goes over a table whose half-edges are indexed: the longest of the fewest counts from a basin (its eccentricity), and the longest of these.
// These functions are for the calls above; what they require those have checked. What the searches leave in seen and in the queue is free.

#![tactic(auto)]

ghost use Rattle.std.specs.Prelude.{◌≡◌, cond, ◌≤◌, ◌<◌, max, length};
ghost use Rattle.network.specs.Networks.{basins_of, is_wet};
ghost use Rattle.distances.specs.Diameters.{greatest, farthest};
ghost use Rattle.half_edges.specs.Ends.{arcs_of};
ghost use Rattle.basins.specs.Graphs.{net_on};
ghost use Rattle.basins.specs.Wet.{Tabled};
ghost use Rattle.orienting.specs.Ready.{Ready};
ghost use Rattle.eccentricity.specs.Rows.{count_at, most_with};

use distances::UNREACHED;
use half_edges::Graph;

// The larger of most and the count of basin v, if it is wet; else most.
fn count_in(graph: &Graph, kinds: &[u8], seen: &[u16], v: usize, most: u16) -> u16
    requires kinds_len { length kinds.now ≡ length graph.now.a.now }
    requires n_in_bounds { graph.now.basins ≤ length seen.now }
    requires v_lt_n { v < graph.now.basins }
    ensures { result ≡ most_with (is_wet (net_on graph.now kinds.now) v) most (count_at seen.now v) }
{
    let count = seen[v];
    if count <= most {
        return most;
    }
    let wet = basins::is_wet(graph, kinds, v);
    if wet { count } else { most }
}

// The greatest count of a wet basin: UNREACHED if one is not reached, 0 if there is none.
fn greatest_count(graph: &Graph, kinds: &[u8], seen: &[u16]) -> u16
    requires kinds_len { length kinds.now ≡ length graph.now.a.now }
    requires n_in_bounds { graph.now.basins ≤ length seen.now }
    ensures { result ≡ greatest (count_at seen.now) (basins_of (net_on graph.now kinds.now)) }
{
    let mut most = 0;
    for v in 0..graph.basins {
        most = count_in(graph, kinds, seen, v, most);
    }
    most
}

// The longest of the fewest counts from basin u to a wet basin.
fn eccentricity(
    graph: &Graph,
    kinds: &[u8],
    ways: &[u8],
    u: u16,
    seen: &mut [u16],
    queue: &mut [u16],
) -> u16
    requires ready { Ready graph.now ways.now seen.old queue.old }
    requires kinds_len { length kinds.now ≡ length graph.now.a.now }
    requires u_lt_n { u < graph.now.basins }
    ensures { result ≡ farthest (basins_of (net_on graph.now kinds.now))
        (arcs_of graph.now.a.now graph.now.b.now ways.now) u }
{
    search::search(graph, ways, u, false, seen, queue);
    greatest_count(graph, kinds, seen)
}

// The larger of most and the longest of the fewest counts from basin v, if it is wet; else most.
fn longest_in(
    graph: &Graph,
    kinds: &[u8],
    ways: &[u8],
    v: usize,
    most: u16,
    seen: &mut [u16],
    queue: &mut [u16],
) -> u16
    requires ready { Ready graph.now ways.now seen.old queue.old }
    requires kinds_len { length kinds.now ≡ length graph.now.a.now }
    requires v_lt_n { v < graph.now.basins }
    ensures { result ≡ most_with (is_wet (net_on graph.now kinds.now) v) most
        (farthest (basins_of (net_on graph.now kinds.now)) (arcs_of graph.now.a.now graph.now.b.now ways.now) v) }
{
    if !basins::is_wet(graph, kinds, v) {
        return most;
    }
    let u = v as u16;
    let far = eccentricity(graph, kinds, ways, u, seen, queue);
    most.max(far)
}

// The longest of the fewest counts over all ordered pairs of wet basins, by one search for each wet basin; UNREACHED if one is not reached from another, and
// then no search follows.
pub fn longest(graph: &Graph, kinds: &[u8], ways: &[u8], seen: &mut [u16], queue: &mut [u16]) -> u16
    requires ready { Ready graph.now ways.now seen.old queue.old }
    requires kinds_len { length kinds.now ≡ length graph.now.a.now }
    ensures { result ≡ greatest (farthest (basins_of (net_on graph.now kinds.now))
        (arcs_of graph.now.a.now graph.now.b.now ways.now)) (basins_of (net_on graph.now kinds.now)) }
{
    let mut most = 0;
    for v in 0..graph.basins {
        if most >= UNREACHED {
            return most;
        }
        most = longest_in(graph, kinds, ways, v, most, seen, queue);
    }
    most
}
