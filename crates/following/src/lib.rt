// The next plan of a setting over an accepted table whose rows are of one length and whose half-edges are indexed: of a plan by one step, of any other
// setting by following it as far as it goes.
// These functions are for the planner; what they require it has checked. What the searches leave in working memory is free but for two things: the
// ways, where a plan is found, and what is noted for each basin in seen, where a finding is.

#![tactic(auto)]

ghost use Rattle.basins.specs.Graphs.{net_on};
ghost use Rattle.orienting.specs.Ready.{Ready};
ghost use Rattle.seeking.specs.Found.{NextFound};
ghost use Rattle.seeking.specs.Seeks.{AtPlan};
ghost use Rattle.following.specs.Nexts.{OtherThanPlan, Followable, AtSetting, NextAfter};

use half_edges::Graph;
use seeking::Found;

// The next plan of a plan, whose ways `under` has: no other is alike to the end.
fn next_of_plan(
    graph: &Graph,
    kinds: &[u8],
    setting: &[u8],
    under: &[u8],
    ways: &mut [u8],
    seen: &mut [u16],
    queue: &mut [u16],
) -> Option<Found>
    requires ready { Ready graph.now ways.old seen.old queue.old }
    requires at_plan { AtPlan graph.now.basins kinds.now graph.now.a.now graph.now.b.now setting.now under.now }
    ensures { NextFound (net_on graph.now kinds.now) setting.now
        ways.new seen.new result }
{
    tables::orient(kinds, setting, ways);
    let m = graph.a.len();
    seeking::part_from(graph, kinds, under, ways, m, seen, queue)
}

// The next plan of a setting that is none, where there is a plan: the setting is followed up to the first gate that loses something, which it has, since it is
// no plan; and no plan is alike up to that gate and with it.
fn follow_and_part(
    graph: &Graph,
    kinds: &[u8],
    under: &[u8],
    ways: &mut [u8],
    seen: &mut [u16],
    queue: &mut [u16],
) -> Option<Found>
    requires ready { Ready graph.now ways.old seen.old queue.old }
    requires followable { Followable graph.now.basins kinds.now graph.now.a.now graph.now.b.now under.now ways.old }
    ensures { NextAfter (net_on graph.now kinds.now) under.now
        ways.new seen.new result }
{
    tables::orient(kinds, &[], ways);
    let r = branching::follow(graph, kinds, under, ways, seen, queue).unwrap();
    ways[r] = under[r];
    seeking::part_from(graph, kinds, under, ways, r + 1, seen, queue)
}

// The next plan of a setting that is none, whose ways `under` has, or the network's finding.
fn next_of_other(
    graph: &Graph,
    kinds: &[u8],
    under: &[u8],
    ways: &mut [u8],
    seen: &mut [u16],
    queue: &mut [u16],
) -> Option<Found>
    requires ready { Ready graph.now ways.old seen.old queue.old }
    requires other_than_plan { OtherThanPlan graph.now.basins kinds.now graph.now.a.now graph.now.b.now under.now ways.old }
    ensures { NextAfter (net_on graph.now kinds.now) under.now
        ways.new seen.new result }
{
    tables::orient(kinds, &[], ways);
    match seeking::first_from(graph, kinds, ways, seen, queue) {
        Found::Oriented => follow_and_part(graph, kinds, under, ways, seen, queue),
        finding => Some(finding),
    }
}

// Searches for the next plan of a setting, whose ways `under` has: the ways that it leaves are the plan's, and what it notes is the side of a finding.
pub fn next_of(
    graph: &Graph,
    kinds: &[u8],
    setting: &[u8],
    under: &[u8],
    ways: &mut [u8],
    seen: &mut [u16],
    queue: &mut [u16],
) -> Option<Found>
    requires ready { Ready graph.now ways.old seen.old queue.old }
    requires at_setting { AtSetting graph.now.basins kinds.now graph.now.a.now graph.now.b.now setting.now under.now ways.old }
    ensures { NextFound (net_on graph.now kinds.now) setting.now
        ways.new seen.new result }
{
    if orienting::shut_in_basin(graph, kinds, under, seen, queue).is_none() {
        next_of_plan(graph, kinds, setting, under, ways, seen, queue)
    } else {
        next_of_other(graph, kinds, under, ways, seen, queue)
    }
}
