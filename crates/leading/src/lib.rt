// Whether one basin leads to another, searched for from both ends: along the arrows from start, and upstream, against them, from the goal. Until the two searches meet
// they share no basin. So they share one row of notes and one queue: each notes for a basin that it sees the basin that it began at, and the one queues from the
// front of the row, the other from its back.
// The functions with a `requires` are for the crates above, which have checked it.

#![tactic(auto)]

ghost use Rattle.std.specs.Prelude.{◌≡◌, ◌+◌, ◌≤◌, ◌<◌, length, get_or};
ghost use Rattle.distances.specs.Distances.{unreached};
ghost use Rattle.network.specs.Orientations.{reached};
ghost use Rattle.half_edges.specs.Ends.{arcs_of, sided};
ghost use Rattle.search.specs.Searches.{Searchable, unseen};
ghost use Rattle.leading.specs.Leads.{place_of, lane, NotedBy, BothBegun, Spreadable, Spread, Underway};

use distances::UNREACHED;
use half_edges::{Graph, NO_HALF};

// The place in a queue of n of what a search queued k-th: from the front or, upstream, from the back.
fn place(n: usize, k: usize, up: bool) -> usize
    requires { k < n }
    ensures value { result ≡ place_of up n k }
    ensures upper_bound { result < n }
{
    if up { n - 1 - k } else { k }
}

// Notes for basin w that the search from c sees it, and queues it, unless it is seen already. Returns how many this search has queued.
fn visit(
    n: usize,
    w: u16,
    c: u16,
    up: bool,
    seen: &mut [u16],
    queue: &mut [u16],
    tail: usize,
) -> usize
    requires w_in_bounds { w < length seen.old }
    requires c_lt_unreached { c < unreached }
    requires queue_len { length queue.old ≡ n }
    requires seen_bound { tail + unseen seen.old ≤ n }
    ensures { NotedBy up n w c seen.old queue.old tail seen.new queue.new result }
{
    let v = w as usize;
    if seen[v] >= UNREACHED {
        seen[v] = c;
        queue[place(n, tail, up)] = w;
        return tail + 1;
    }
    tail
}

// The search from c visits each basin to which a half-edge passes from the one that it queued k-th, or upstream passes from there to it. Returns how many it has queued
// then, or None as soon as one of these basins is seen by the search from d: the two have met.
fn scan(
    graph: &Graph,
    ways: &[u8],
    seen: &mut [u16],
    queue: &mut [u16],
    k: usize,
    tail: usize,
    up: bool,
    c: u16,
    d: u16,
) -> Option<usize>
    requires { Spreadable graph.now ways.now seen.old queue.old k tail up c d }
    ensures { Spread (arcs_of graph.now.a.now graph.now.b.now (sided up ways.now))
        (get_or (lane up queue.old) k 0) up graph.now.basins c d
        seen.old queue.old tail seen.new queue.new result }
{
    let n = graph.basins;
    let mut end = tail;
    let mut h = graph.head[queue[place(n, k, up)] as usize];
    while h != NO_HALF {
        let half = h;
        h = graph.next[half as usize];
        if !search::passes(ways, half, up) {
            continue;
        }
        let w = search::far(graph.a, graph.b, half);
        if seen[w as usize] == d {
            return None;
        }
        end = visit(n, w, c, up, seen, queue, end);
    }
    Some(end)
}

// Goes on with two searches that have begun, by turns, until the two meet or one of them has nothing left to search from. Says whether they met: whether the goal
// is reached from start. What it leaves in the two rows is free.
fn search_on(
    graph: &Graph,
    ways: &[u8],
    start: u16,
    goal: u16,
    seen: &mut [u16],
    queue: &mut [u16],
) -> bool
    requires { Underway graph.now ways.now start goal seen.old queue.old }
    ensures { result ≡ reached (arcs_of graph.now.a.now graph.now.b.now ways.now) start goal }
{
    let mut tail = 1;
    let mut uptail = 1;
    let mut done = 0;
    let mut updone = 0;
    while done < tail {
        if updone >= uptail {
            return false;
        }
        // Which of the two goes on is free: the one with fewer basins waiting, and each by turns where these are equal.
        if tail - done + (done + updone) % 2 <= uptail - updone {
            let Some(end) = scan(graph, ways, seen, queue, done, tail, false, start, goal) else {
                return true;
            };
            tail = end;
            done += 1;
        } else {
            let Some(end) = scan(graph, ways, seen, queue, updone, uptail, true, goal, start) else {
                return true;
            };
            uptail = end;
            updone += 1;
        }
    }
    false
}

// Begins both searches: start and goal are seen, each by its own search, and stand first in the two queues.
fn begin(n: usize, start: u16, goal: u16, seen: &mut [u16], queue: &mut [u16])
    requires start_lt_n { start < n }
    requires goal_lt_n { goal < n }
    requires seen_len { length seen.old ≡ n }
    requires queue_len { length queue.old ≡ n }
    ensures { BothBegun n start goal queue.old seen.new queue.new }
{
    half_edges::fill_row(n, UNREACHED, seen);
    seen[start as usize] = start;
    seen[goal as usize] = goal;
    queue[0] = start;
    queue[n - 1] = goal;
}

// Whether the goal is reached from start, searched for from both ends. What is left in seen and in the queue is free.
pub fn leads(
    graph: &Graph,
    ways: &[u8],
    start: u16,
    goal: u16,
    seen: &mut [u16],
    queue: &mut [u16],
) -> bool
    requires searchable { Searchable graph.now ways.now start seen.old queue.old }
    requires goal_lt_n { goal < graph.now.basins }
    ensures { result ≡ reached (arcs_of graph.now.a.now graph.now.b.now ways.now) start goal }
{
    if start == goal {
        return true;
    }
    let n = graph.basins;
    let notes = &mut seen[..n];
    let waiting = &mut queue[..n];
    begin(n, start, goal, notes, waiting);
    search_on(graph, ways, start, goal, notes, waiting)
}
