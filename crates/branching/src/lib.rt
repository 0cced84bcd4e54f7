// Following a setting gate by gate as far as nothing is lost, and looking back for the last gate at which a later plan parts from it.
// These functions are for the planner; what they require it has checked.

#![tactic(auto)]

ghost use Rattle.std.specs.Prelude.{◌≡◌, ◌<◌, ◌≤◌, length, IfSome};
ghost use Rattle.basins.specs.Graphs.{net_on};
ghost use Rattle.orientations.specs.Partials.{StronglyConnected};
ghost use Rattle.orienting.specs.Ready.{Ready};
ghost use Rattle.branching.specs.Follows.{Following, Followed, TurnedBackFrom};

use half_edges::Graph;

// Orients the gates one after the other as `under` has them, from ways of which all gates are usable either way.
// Returns the first gate that loses something if it is oriented so: that one and those after it are usable either way. What it leaves in seen and in the
// queue is free.
pub fn follow(
    graph: &Graph,
    kinds: &[u8],
    under: &[u8],
    ways: &mut [u8],
    seen: &mut [u16],
    queue: &mut [u16],
) -> Option<usize>
    requires ready { Ready graph.now ways.old seen.old queue.old }
    requires following { Following graph.now.basins kinds.now kinds.now graph.now.a.now graph.now.b.now under.now ways.old 0 }
    requires strongly_connected { StronglyConnected (net_on graph.now kinds.now) ways.old }
    ensures { Followed (net_on graph.now kinds.now) kinds.now under.now ways.new result }
{
    for i in 0..graph.a.len() {
        if !parting::orient_as(graph, kinds, under, ways, i, seen, queue) {
            return Some(i);
        }
    }
    None
}

// From ways that `under` has up to reach `to`, looks back for the last gate before it that is tried, drawn and can be turned without loss, and turns it. A gate
// is not tried if `tried` has another kind in its place; one search for each that is tried and that no other reach guides.
// Returns its number; if there is none, the ways are free. The gates after it that are tried are usable either way. What it leaves in seen and in the queue is
// free.
pub fn turn_back(
    graph: &Graph,
    guide: &[u16],
    tried: &[u8],
    under: &[u8],
    ways: &mut [u8],
    to: usize,
    seen: &mut [u16],
    queue: &mut [u16],
) -> Option<usize>
    requires ready { Ready graph.now ways.old seen.old queue.old }
    requires tried_len { length tried.now ≡ length graph.now.a.now }
    requires under_len { length under.now ≡ length graph.now.a.now }
    requires to_in_bounds { to ≤ length graph.now.a.now }
    ensures below { IfSome result (λ r. r < to) }
    ensures turned_back { TurnedBackFrom graph.now.basins guide.now tried.now graph.now.a.now graph.now.b.now under.now
        ways.old to ways.new result }
{
    for i in (0..to).rev() {
        if parting::part_at(graph, guide, tried, under, ways, i, seen, queue) {
            return Some(i);
        }
    }
    None
}
