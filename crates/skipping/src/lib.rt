// Gates that need no trying from plan to plan: those that are bound in the whole network (document 02, item 2). They are looked for only where a step went back
// over many gates, and each of them once; not if another reach guides them, since they are then tried without a search.
// These functions are for the crates above, which have checked what they require.

#![tactic(auto)]

ghost use Rattle.std.specs.Prelude.{◌≡◌, ◌≤◌, ◌<◌, length};
ghost use Rattle.orienting.specs.Ready.{Ready};
ghost use Rattle.skipping.specs.Skips.{NotedAt, NotedFrom, BindsStill};

use half_edges::Graph;
use series_way::UNGUIDED;
use tables::KIND_GATED;

// The fewest reaches for which it pays to look which of them are bound. No promise rests on it.
const WORTH: usize = 32;

// Whether another reach guides reach i: it is then tried without a search, and need not be looked at. No promise rests on it.
fn is_guided(guide: &[u16], i: usize) -> bool {
    guide.get(i).is_some_and(|&h| h < UNGUIDED)
}

// Tries reach i no more if it is a gate that is bound, being hung in the way by a plan. No gate is oriented in the ways `loose`. What it leaves in seen and in
// the queue is free.
fn note_at(
    graph: &Graph,
    guide: &[u16],
    tried: &mut [u8],
    loose: &mut [u8],
    i: usize,
    way: u8,
    seen: &mut [u16],
    queue: &mut [u16],
)
    requires ready { Ready graph.now loose.old seen.old queue.old }
    requires tried_len { length tried.old ≡ length graph.now.a.now }
    requires i_in_bounds { i < length graph.now.a.now }
    ensures { NotedAt graph.now.a.now graph.now.b.now tried.old loose.old i way tried.new loose.new }
{
    if tried[i] != KIND_GATED {
        return;
    }
    if way > 1 {
        return;
    }
    if is_guided(guide, i) {
        return;
    }
    if binding::bound_at(graph, loose, i, way, seen, queue) {
        tried[i] = 1;
    }
}

// The same of all reaches from one to another, which `ways` has as a plan hangs them.
fn note_from(
    graph: &Graph,
    guide: &[u16],
    tried: &mut [u8],
    loose: &mut [u8],
    ways: &[u8],
    from: usize,
    to: usize,
    seen: &mut [u16],
    queue: &mut [u16],
)
    requires ready { Ready graph.now loose.old seen.old queue.old }
    requires tried_len { length tried.old ≡ length graph.now.a.now }
    requires ways_len { length ways.now ≡ length graph.now.a.now }
    requires to_in_bounds { to ≤ length graph.now.a.now }
    ensures { NotedFrom graph.now.basins graph.now.a.now graph.now.b.now ways.now tried.old loose.old tried.new }
{
    for i in from..to {
        note_at(graph, guide, tried, loose, i, ways[i], seen, queue);
    }
}

// After a step to the plan whose ways stand in `ways`, which parted at reach `from`: if these are many, tries none of the bound gates from it on that were not
// looked at yet; those from reach `to` on were. Returns the first that is looked at now. What it leaves in `loose`, in seen and in the queue is free.
pub fn note_bound(
    graph: &Graph,
    guide: &[u16],
    kinds: &[u8],
    tried: &mut [u8],
    loose: &mut [u8],
    ways: &[u8],
    from: usize,
    to: usize,
    seen: &mut [u16],
    queue: &mut [u16],
) -> usize
    requires ready { Ready graph.now ways.now seen.old queue.old }
    requires kinds_len { length kinds.now ≡ length graph.now.a.now }
    requires tried_len { length tried.old ≡ length graph.now.a.now }
    requires loose_len { length loose.old ≡ length graph.now.a.now }
    ensures { BindsStill graph.now.basins kinds.now graph.now.a.now graph.now.b.now ways.now tried.old tried.new }
{
    if to <= from {
        return to;
    }
    if to - from < WORTH {
        return to;
    }
    tables::orient(kinds, &[], loose);
    let end = tables::least(to, graph.a.len());
    note_from(graph, guide, tried, loose, ways, from, end, seen, queue);
    from
}
