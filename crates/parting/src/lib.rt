// Following a setting at one reach, and parting from it there upwards.
// These functions are for the planner; what they require it has checked.

#![tactic(auto)]

ghost use Rattle.std.specs.Prelude.{◌≡◌, length};
ghost use Rattle.orienting.specs.Ready.{AtReach};
ghost use Rattle.parting.specs.Parts.{OrientedAs, PartedAtFrom};

use half_edges::Graph;
use tables::KIND_GATED;

// Orients reach i, if it is a gate, as `under` has it where that loses nothing; otherwise it is usable either way. Says whether it could. What it leaves
// in seen and in the queue is free.
pub fn orient_as(
    graph: &Graph,
    kinds: &[u8],
    under: &[u8],
    ways: &mut [u8],
    i: usize,
    seen: &mut [u16],
    queue: &mut [u16],
) -> bool
    requires at_reach { AtReach graph.now kinds.now ways.old i seen.old queue.old }
    requires under_len { length under.now ≡ length graph.now.a.now }
    ensures { OrientedAs kinds.now graph.now.a.now graph.now.b.now under.now ways.old i ways.new result }
{
    if kinds[i] != KIND_GATED {
        return true;
    }
    orienting::try_way(graph, ways, i, under[i], seen, queue)
}

// Turns reach i if it is a gate that `under` has as drawn and that loses nothing; otherwise a gate is usable either way. Says whether it was turned. By its
// guide, if the row has one that is hung, else by a search. What it leaves in seen and in the queue is free.
pub fn part_at(
    graph: &Graph,
    guide: &[u16],
    kinds: &[u8],
    under: &[u8],
    ways: &mut [u8],
    i: usize,
    seen: &mut [u16],
    queue: &mut [u16],
) -> bool
    requires at_reach { AtReach graph.now kinds.now ways.old i seen.old queue.old }
    requires under_len { length under.now ≡ length graph.now.a.now }
    ensures { PartedAtFrom graph.now.basins guide.now kinds.now graph.now.a.now graph.now.b.now under.now
        ways.old i ways.new result }
{
    if kinds[i] != KIND_GATED {
        return false;
    }
    if under[i] != 0 {
        ways[i] = 2;
        return false;
    }
    series_way::try_guided(graph, guide, ways, i, 1, seen, queue)
}
