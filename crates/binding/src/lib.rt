// Which gates are bound (document 02, item 2), by one search for each: a gate that a plan hangs one way can be hung the other too exactly if, with all other
// gates usable either way, its ends stay joined so without it.
// These functions are for the crates above, which have checked what they require.

#![tactic(auto)]

ghost use Rattle.std.specs.Prelude.{◌≡◌, cond, not, ◌++◌, ◌-◌, ◌≤◌, ◌<◌, length, set, drop};
ghost use Rattle.network.specs.Choices.{bound_bytes};
ghost use Rattle.basins.specs.Graphs.{net_on};
ghost use Rattle.tables.specs.Rows.{gates_in};
ghost use Rattle.orienting.specs.Ready.{Ready};
ghost use Rattle.orienting.specs.Tries.{left_out, led_round};
ghost use Rattle.binding.specs.Tellings.{Tellable};

use half_edges::Graph;
use tables::KIND_GATED;

// Whether reach i, which a plan hangs in the way, can get no other. Afterwards it is usable either way. What it leaves in seen and in the queue is free.
pub fn bound_at(
    graph: &Graph,
    ways: &mut [u8],
    i: usize,
    way: u8,
    seen: &mut [u16],
    queue: &mut [u16],
) -> bool
    requires ready { Ready graph.now ways.old seen.old queue.old }
    requires i_in_bounds { i < length graph.now.a.now }
    requires way_bound { way ≤ 1 }
    ensures ways_after { ways.new ≡ set ways.old i 2 }
    ensures value { result ≡ not (led_round (left_out graph.now.a.now graph.now.b.now ways.old i) graph.now.a.now graph.now.b.now i (1 - way)) }
{
    let open = orienting::try_way(graph, ways, i, 1 - way, seen, queue);
    ways[i] = 2;
    !open
}

// The byte of a gate that a plan hangs in the way: "0 always as drawn, 1 always turned, 2 either".
fn told(bound: bool, way: u8) -> u8
    requires { way ≤ 1 }
    ensures { result ≡ cond bound way 2 }
{
    if !bound {
        return 2;
    }
    if way == 0 { 0 } else { 1 }
}

// Puts the bytes of all gates where those of a plan stand. No gate is oriented in the ways. What it leaves in seen and in the queue is free.
pub fn tell_bound(
    graph: &Graph,
    kinds: &[u8],
    ways: &mut [u8],
    bytes: &mut [u8],
    seen: &mut [u16],
    queue: &mut [u16],
)
    requires ready { Ready graph.now ways.old seen.old queue.old }
    requires tellable { Tellable graph.now.basins kinds.now graph.now.a.now graph.now.b.now ways.old bytes.old }
    ensures { bytes.new ≡ bound_bytes (net_on graph.now kinds.now)
        ++ drop (gates_in kinds.now) bytes.old }
{
    let mut k = 0;
    for (i, &kind) in kinds.iter().enumerate() {
        if kind != KIND_GATED {
            continue;
        }
        let way = bytes[k];
        let bound = bound_at(graph, ways, i, way, seen, queue);
        bytes[k] = told(bound, way);
        k += 1;
    }
}
