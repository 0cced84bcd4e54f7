// Tests of a partial orientation over a table whose half-edges are indexed: which wet basin fails to reach all, and whether a reach can get a way
// without loss. These functions are for the planner; what they require it has checked.

#![tactic(auto)]

ghost use Rattle.std.specs.Prelude.{◌≡◌, cond, ◌<◌, length, set, Some};
ghost use Rattle.half_edges.specs.Ends.{arcs_of, sided};
ghost use Rattle.basins.specs.Graphs.{net_on};
ghost use Rattle.basins.specs.Wet.{any_basin, Lowest};
ghost use Rattle.orienting.specs.Ready.{Ready, FirstUnreached, ShutInBasin};
ghost use Rattle.orienting.specs.Tries.{Tried};

use half_edges::Graph;

// The lowest wet basin that is not reached from start along the arrows or, if so asked, against them; or None if all are. What it leaves in seen and in the
// queue is free. It is called once for each direction, and faster with that known.
#[inline(always)]
fn first_unreached(
    graph: &Graph,
    kinds: &[u8],
    ways: &[u8],
    start: u16,
    against: bool,
    seen: &mut [u16],
    queue: &mut [u16],
) -> Option<usize>
    requires ready { Ready graph.now ways.now seen.old queue.old }
    requires kinds_len { length kinds.now ≡ length graph.now.a.now }
    requires start_lt_n { start < graph.now.basins }
    ensures { FirstUnreached (net_on graph.now kinds.now)
        (arcs_of graph.now.a.now graph.now.b.now (sided against ways.now)) start result }
{
    search::search(graph, ways, start, against, seen, queue);
    basins::lowest_unseen(graph, kinds, seen)
}

// The lowest wet basin that does not reach all wet basins, or None if all do; low is the lowest: if it reaches all, a basin does exactly if it reaches low.
// What it leaves in seen and in the queue is free.
fn shut_in_from(
    graph: &Graph,
    kinds: &[u8],
    ways: &[u8],
    low: u16,
    seen: &mut [u16],
    queue: &mut [u16],
) -> Option<usize>
    requires ready { Ready graph.now ways.now seen.old queue.old }
    requires kinds_len { length kinds.now ≡ length graph.now.a.now }
    requires lowest { Lowest (net_on graph.now kinds.now) any_basin (Some low) }
    ensures { ShutInBasin (net_on graph.now kinds.now)
        (arcs_of graph.now.a.now graph.now.b.now ways.now) result }
{
    if first_unreached(graph, kinds, ways, low, false, seen, queue).is_some() {
        return Some(low as usize);
    }
    first_unreached(graph, kinds, ways, low, true, seen, queue)
}

// The lowest wet basin that does not reach all wet basins, or None if all do: so it is if all basins are dry. What it leaves in seen and in the queue is free.
pub fn shut_in_basin(
    graph: &Graph,
    kinds: &[u8],
    ways: &[u8],
    seen: &mut [u16],
    queue: &mut [u16],
) -> Option<usize>
    requires ready { Ready graph.now ways.now seen.old queue.old }
    requires kinds_len { length kinds.now ≡ length graph.now.a.now }
    ensures { ShutInBasin (net_on graph.now kinds.now)
        (arcs_of graph.now.a.now graph.now.b.now ways.now) result }
{
    let Some(low) = basins::lowest_wet(graph, kinds) else {
        return None;
    };
    shut_in_from(graph, kinds, ways, low as u16, seen, queue)
}

// Gives reach i the way if the search led round it; otherwise it is usable either way. Returns what the search said.
fn keep_if(led: bool, ways: &mut [u8], i: usize, way: u8) -> bool
    requires { i < length ways.old }
    ensures ways_after { ways.new ≡ set ways.old i (cond led way 2) }
    ensures value { result ≡ led }
{
    if led {
        ways[i] = way;
        return true;
    }
    ways[i] = 2;
    false
}

// Gives reach i the way (0 as drawn, else turned) if that loses nothing: if the end to which it passes leads to the other without it. Otherwise it is
// usable either way. Says whether it could. What it leaves in seen and in the queue is free. The search is called at two places, so that it stays a
// function of its own: inlined here it is slower.
pub fn try_way(
    graph: &Graph,
    ways: &mut [u8],
    i: usize,
    way: u8,
    seen: &mut [u16],
    queue: &mut [u16],
) -> bool
    requires ready { Ready graph.now ways.old seen.old queue.old }
    requires i_in_bounds { i < length graph.now.a.now }
    ensures { Tried graph.now.a.now graph.now.b.now ways.old i way ways.new result }
{
    ways[i] = 3;
    if way == 0 {
        let led = leading::leads(graph, ways, graph.b[i], graph.a[i], seen, queue);
        return keep_if(led, ways, i, way);
    }
    let led = leading::leads(graph, ways, graph.a[i], graph.b[i], seen, queue);
    keep_if(led, ways, i, way)
}
