// The first plan, and the step to a later plan, over an accepted table whose rows are of one length and whose half-edges are indexed.
// These functions are for the planner; what they require it has checked. What the searches leave in working memory is free but for two things: the
// ways, where a plan is found, and what is noted for each basin in seen, where a finding is.

#![tactic(auto)]

ghost use Rattle.std.specs.Prelude.{◌≡◌, ◌≤◌, length};
ghost use Rattle.basins.specs.Graphs.{net_on};
ghost use Rattle.orienting.specs.Ready.{Ready};
ghost use Rattle.seeking.specs.Levels.{NoneOriented, Passable};
ghost use Rattle.seeking.specs.Found.{FirstFound};
ghost use Rattle.seeking.specs.Seeks.{Partable, StepFrom, NextFrom};

use half_edges::Graph;

// What the search for a plan came to: a closed set of basins that are not all (document 01: shut in), a bridge (a lone reach), or a plan, with all
// gates oriented.
#[derive(Clone, Copy)]
pub enum Found {
    Closed,
    Bridge(usize),
    Oriented,
}

// Orients all gates of a passable network, none of which is oriented yet. At a bridge what it notes is its side without the lowest wet basin.
fn orient_all(
    graph: &Graph,
    kinds: &[u8],
    ways: &mut [u8],
    seen: &mut [u16],
    queue: &mut [u16],
) -> Found
    requires ready { Ready graph.now ways.old seen.old queue.old }
    requires passable { Passable graph.now.basins kinds.now graph.now.a.now graph.now.b.now ways.old }
    ensures { FirstFound (net_on graph.now kinds.now) ways.new seen.new result }
{
    match completing::greedy(graph, kinds, ways, 0, seen, queue) {
        Some(r) => {
            basins::note_side(graph, kinds, seen);
            Found::Bridge(r)
        }
        None => Found::Oriented,
    }
}

// Searches for the first plan, where no gate is oriented yet: the ways that it leaves are the plan's, and what it notes is the side of a finding.
pub fn first_from(
    graph: &Graph,
    kinds: &[u8],
    ways: &mut [u8],
    seen: &mut [u16],
    queue: &mut [u16],
) -> Found
    requires ready { Ready graph.now ways.old seen.old queue.old }
    requires none_oriented { NoneOriented graph.now.basins kinds.now graph.now.a.now graph.now.b.now ways.old }
    ensures { FirstFound (net_on graph.now kinds.now) ways.new seen.new result }
{
    match orienting::shut_in_basin(graph, kinds, ways, seen, queue) {
        Some(u) => {
            search::search(graph, ways, u as u16, false, seen, queue);
            Found::Closed
        }
        None => orient_all(graph, kinds, ways, seen, queue),
    }
}

// One step: from ways that `under` has up to reach `to`, parts from them upwards at the last gate before it at which a plan can, and decides the
// gates after it. Returns the number of that gate, if there is one. There is a plan. A gate that has one way in all plans is not tried if `tried` has another
// kind in its place: it keeps the way that it has. A gate that another reach guides, as the row has it, takes its way from that.
pub fn step_from(
    graph: &Graph,
    guide: &[u16],
    tried: &[u8],
    under: &[u8],
    ways: &mut [u8],
    to: usize,
    seen: &mut [u16],
    queue: &mut [u16],
) -> Option<usize>
    requires ready { Ready graph.now ways.old seen.old queue.old }
    requires tried_len { length tried.now ≡ length graph.now.a.now }
    requires under_len { length under.now ≡ length graph.now.a.now }
    requires to_in_bounds { to ≤ length graph.now.a.now }
    ensures { StepFrom graph.now.basins guide.now tried.now graph.now.a.now graph.now.b.now under.now
        ways.old to ways.new result }
{
    let at = branching::turn_back(graph, guide, tried, under, ways, to, seen, queue)?;
    completing::complete(graph, guide, tried, ways, at + 1, seen, queue);
    Some(at)
}

// The next plan, if none is alike up to `to` and later: what the step came to, or none is later. Its row of guides is the empty one.
pub fn part_from(
    graph: &Graph,
    kinds: &[u8],
    under: &[u8],
    ways: &mut [u8],
    to: usize,
    seen: &mut [u16],
    queue: &mut [u16],
) -> Option<Found>
    requires ready { Ready graph.now ways.old seen.old queue.old }
    requires partable { Partable graph.now.basins kinds.now kinds.now graph.now.a.now graph.now.b.now under.now ways.old to }
    ensures { NextFrom (net_on graph.now kinds.now) under.now to
        ways.new seen.new result }
{
    let at = step_from(graph, &[], kinds, under, ways, to, seen, queue);
    at.map(|_| Found::Oriented)
}
