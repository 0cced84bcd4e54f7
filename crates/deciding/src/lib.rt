// Deciding one gate of a partial orientation: as drawn where that loses nothing, else turned.
// These functions are for the planner; what they require it has checked.

#![tactic(auto)]

ghost use Rattle.std.specs.Prelude.{};
ghost use Rattle.orienting.specs.Ready.{AtReach};
ghost use Rattle.deciding.specs.Gates.{OrientedGate, SettledFrom};

use half_edges::Graph;
use tables::KIND_GATED;

// Orients reach i, if it is a gate, as drawn where that loses nothing, else turned where that does not. Says whether it could; if not, seen holds
// what its end A leads to without it, and the ways are free. What else it leaves in seen, and the queue, is free.
pub fn orient_gate(
    graph: &Graph,
    kinds: &[u8],
    ways: &mut [u8],
    i: usize,
    seen: &mut [u16],
    queue: &mut [u16],
) -> bool
    requires { AtReach graph.now kinds.now ways.old i seen.old queue.old }
    ensures { OrientedGate graph.now.basins kinds.now graph.now.a.now graph.now.b.now ways.old i ways.new seen.new result }
{
    if kinds[i] != KIND_GATED {
        return true;
    }
    if orienting::try_way(graph, ways, i, 0, seen, queue) {
        return true;
    }
    if orienting::try_way(graph, ways, i, 1, seen, queue) {
        return true;
    }
    ways[i] = 3;
    search::search(graph, ways, graph.a[i], false, seen, queue);
    false
}

// Orients reach i, if it is a gate, as drawn where that loses nothing, else turned: for a gate that is no bridge, one of the two loses nothing. By its
// guide, if the row has one that is hung, else by a search. What it leaves in seen and in the queue is free.
pub fn settle(
    graph: &Graph,
    guide: &[u16],
    kinds: &[u8],
    ways: &mut [u8],
    i: usize,
    seen: &mut [u16],
    queue: &mut [u16],
)
    requires { AtReach graph.now kinds.now ways.old i seen.old queue.old }
    ensures { SettledFrom graph.now.basins guide.now kinds.now graph.now.a.now graph.now.b.now ways.old i ways.new }
{
    if kinds[i] != KIND_GATED {
        return;
    }
    let drawn = series_way::try_guided(graph, guide, ways, i, 0, seen, queue);
    if drawn {
        return;
    }
    ways[i] = 1;
}
