// Demands 2 and 3 over the running calls. The proofs cite only what first and next promise.

#![tactic(auto)]

ghost use Rattle.network.specs.Networks.{net};
ghost use Rattle.tables.specs.Rows.{net_of};
ghost use Rattle.planner_laws.specs.Demands.{FirstAsked, NextOfTwo};

use network::{Reach, Refusal};
use planner_rows::{first_plan, next_plan};
use replies::Reply;

// Two answers of next.
#[derive(Clone, Copy)]
pub struct Both {
    pub first: Result<Reply, Refusal>,
    pub second: Result<Reply, Refusal>,
}

// Asks for the first plan: what the call promises, and demand 2.
pub fn first_shown_rows(
    basins: u16,
    kinds: &[u8],
    a: &[u16],
    b: &[u16],
    plan: &mut [u8],
    marks: &mut [u8],
) -> Result<Reply, Refusal>
    ensures { FirstAsked (net_of basins kinds.now a.now b.now) plan.old marks.old
        plan.new marks.new result }
{
    first_plan(basins, kinds, a, b, plan, marks)
}

// The same over a lent table.
pub fn first_shown(
    basins: u16,
    table: &[Reach],
    plan: &mut [u8],
    marks: &mut [u8],
) -> Result<Reply, Refusal>
    ensures { FirstAsked (net basins table.now) plan.old marks.old plan.new marks.new result }
{
    planner::first_plan(basins, table, plan, marks)
}

// Asks next of two settings, each with lent buffers of its own: what the two calls promise, and demand 3.
pub fn next_of_two_rows(
    basins: u16,
    kinds: &[u8],
    a: &[u16],
    b: &[u16],
    s: &[u8],
    t: &[u8],
    plan1: &mut [u8],
    marks1: &mut [u8],
    plan2: &mut [u8],
    marks2: &mut [u8],
) -> Both
    ensures { NextOfTwo (net_of basins kinds.now a.now b.now) s.now t.now
        plan1.old marks1.old plan2.old marks2.old
        plan1.new marks1.new plan2.new marks2.new
        result.first result.second }
{
    let first = next_plan(basins, kinds, a, b, s, plan1, marks1);
    let second = next_plan(basins, kinds, a, b, t, plan2, marks2);
    Both { first, second }
}

// The same over a lent table.
pub fn next_of_two(
    basins: u16,
    table: &[Reach],
    s: &[u8],
    t: &[u8],
    plan1: &mut [u8],
    marks1: &mut [u8],
    plan2: &mut [u8],
    marks2: &mut [u8],
) -> Both
    ensures { NextOfTwo (net basins table.now) s.now t.now
        plan1.old marks1.old plan2.old marks2.old
        plan1.new marks1.new plan2.new marks2.new
        result.first result.second }
{
    let first = planner::next_plan(basins, table, s, plan1, marks1);
    let second = planner::next_plan(basins, table, t, plan2, marks2);
    Both { first, second }
}
