// Breadth-first search over the indexed half-edges of a reach table. It notes for each basin the fewest reaches to it.
// The functions with a `requires` are for the crates above, which have checked it.

#![tactic(auto)]

ghost use Rattle.std.specs.Prelude.{◌≡◌, ◌++◌, ◌+◌, ◌≤◌, ◌<◌, ◌/◌, length, get_or, replicate, drop};
ghost use Rattle.distances.specs.Distances.{unreached};
ghost use Rattle.half_edges.specs.Ends.{arcs_of, other_of, sided, leaves};
ghost use Rattle.search.specs.Searches.{unseen, Visited, Scannable, Scanned, Searchable, Noted};

use distances::UNREACHED;
use half_edges::{Graph, NO_HALF};

// Whether the reach of half-edge h passes away from the basin at which h stands or, against the arrows, towards it.
pub fn passes(ways: &[u8], h: u16, against: bool) -> bool
    requires { h / 2 < length ways.now }
    ensures { result ≡ leaves (sided against ways.now) h }
{
    let way = ways[h as usize / 2] as u16;
    if against {
        return way == 2 || way == 1 - h % 2;
    }
    way == 2 || way == h % 2
}

// The basin at the far end of the reach of half-edge h.
pub fn far(a: &[u16], b: &[u16], h: u16) -> u16
    requires h_in_bounds { h / 2 < length a.now }
    requires h_in_bounds_2 { h / 2 < length b.now }
    ensures { result ≡ other_of a.now b.now h }
{
    let i = h as usize / 2;
    if h % 2 == 0 { b[i] } else { a[i] }
}

// Notes the count for basin w and puts it at the end of the queue, unless it is seen already. Returns the queue's end.
pub fn visit(w: u16, count: u16, seen: &mut [u16], queue: &mut [u16], tail: usize) -> usize
    requires w_in_bounds { w < length seen.old }
    requires count_lt_unreached { count < unreached }
    requires seen_in_bounds { tail + unseen seen.old ≤ length queue.old }
    ensures { Visited w count seen.old queue.old tail seen.new queue.new result }
{
    let v = w as usize;
    if seen[v] >= UNREACHED {
        seen[v] = count;
        queue[tail] = w;
        return tail + 1;
    }
    tail
}

// Begins a search: start alone is seen, with the count 0, and stands in the queue. Returns the queue's end.
pub fn begin(n: usize, start: u16, seen: &mut [u16], queue: &mut [u16]) -> usize
    requires start_lt_n { start < n }
    requires n_in_bounds { n ≤ length seen.old }
    requires seen_in_bounds { length seen.old ≤ length queue.old }
    ensures { Visited start 0 (replicate n unreached ++ drop n seen.old) queue.old 0
        seen.new queue.new result }
{
    half_edges::fill_row(n, UNREACHED, seen);
    seen[start as usize] = 0;
    queue[0] = start;
    1
}

// Visits, with the count, each basin to which a half-edge passes from the basin at place `at` of the queue, or passes to it from there. Returns the queue's end.
pub fn scan(
    graph: &Graph,
    ways: &[u8],
    seen: &mut [u16],
    queue: &mut [u16],
    at: usize,
    tail: usize,
    against: bool,
    count: u16,
) -> usize
    requires { Scannable graph.now ways.now seen.old queue.old at tail count }
    ensures { Scanned (arcs_of graph.now.a.now graph.now.b.now (sided against ways.now))
        (get_or queue.old at 0) count seen.old queue.old tail seen.new queue.new result }
{
    let mut end = tail;
    let mut h = graph.head[queue[at] as usize];
    while h != NO_HALF {
        if passes(ways, h, against) {
            end = visit(far(graph.a, graph.b, h), count, seen, queue, end);
        }
        h = graph.next[h as usize];
    }
    end
}

// One more than the count of the basin at place `at` of the queue.
fn count_after(seen: &[u16], queue: &[u16], at: usize) -> u16
    requires at_in_bounds { at < length queue.now }
    requires at_in_bounds_2 { get_or queue.now at 0 < length seen.now }
    requires at_bound { get_or seen.now (get_or queue.now at 0) 0 < unreached }
    ensures { result ≡ get_or seen.now (get_or queue.now at 0) 0 + 1 }
{
    seen[queue[at] as usize] + 1
}

// Notes how far the water goes from start along the arrows or, if so asked, against them: seen holds for each basin the fewest reaches that are crossed to get
// there, or UNREACHED. What it holds past the graph's basins, and what the queue holds, is free.
#[inline]
pub fn search(
    graph: &Graph,
    ways: &[u8],
    start: u16,
    against: bool,
    seen: &mut [u16],
    queue: &mut [u16],
)
    requires { Searchable graph.now ways.now start seen.old queue.old }
    ensures { Noted (arcs_of graph.now.a.now graph.now.b.now (sided against ways.now))
        graph.now.basins start seen.new }
{
    let mut tail = begin(graph.basins, start, seen, queue);
    let mut at = 0;
    while at < tail {
        let count = count_after(seen, queue, at);
        tail = scan(graph, ways, seen, queue, at, tail, against, count);
        at += 1;
    }
}
