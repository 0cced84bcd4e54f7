// Completing a partial orientation: the gates from a reach on are decided one after the other, each as drawn where that loses nothing, else turned.
// These functions are for the planner; what they require it has checked.

#![tactic(auto)]

ghost use Rattle.std.specs.Prelude.{◌≡◌, ◌≤◌, length};
ghost use Rattle.basins.specs.Graphs.{net_on};
ghost use Rattle.orienting.specs.Ready.{Ready};
ghost use Rattle.completing.specs.Greedy.{Completable, Greedy, CompletedFrom};

use half_edges::Graph;

// Orients the gates from reach `from` on, one after the other. Returns the first gate that can get neither way: then seen holds a side of it, and the ways
// are free. What else it leaves in seen, and the queue, is free.
pub fn greedy(
    graph: &Graph,
    kinds: &[u8],
    ways: &mut [u8],
    from: usize,
    seen: &mut [u16],
    queue: &mut [u16],
) -> Option<usize>
    requires ready { Ready graph.now ways.old seen.old queue.old }
    requires completable { Completable graph.now.basins kinds.now kinds.now graph.now.a.now graph.now.b.now ways.old from }
    ensures { Greedy (net_on graph.now kinds.now) ways.old from
        ways.new seen.new result }
{
    for i in from..graph.a.len() {
        if !deciding::orient_gate(graph, kinds, ways, i, seen, queue) {
            return Some(i);
        }
    }
    None
}

// The same as `greedy` where no reach is a bridge, of the gates that are tried: one search for each that no other reach guides, and every one gets a way. A
// gate that has its way already is not tried if `tried` has another kind in its place. What it leaves in seen and in the queue is free.
pub fn complete(
    graph: &Graph,
    guide: &[u16],
    tried: &[u8],
    ways: &mut [u8],
    from: usize,
    seen: &mut [u16],
    queue: &mut [u16],
)
    requires ready { Ready graph.now ways.old seen.old queue.old }
    requires tried_len { length tried.now ≡ length graph.now.a.now }
    requires from_in_bounds { from ≤ length graph.now.a.now }
    ensures { CompletedFrom graph.now.basins guide.now tried.now graph.now.a.now graph.now.b.now ways.old from ways.new }
{
    for i in from..graph.a.len() {
        deciding::settle(graph, guide, tried, ways, i, seen, queue);
    }
}
