// Laws over the running calls on two tables: plans and findings are those of the reaches in service (document 02, item 1), and basins numbered before a
// channel reaches them change no reply (item 3). The proofs cite only what first and next promise.

#![tactic(auto)]

ghost use Rattle.tables.specs.Rows.{net_of};
ghost use Rattle.table_laws.specs.Tables.{FirstOfTables, NextOfTables};

use planner_laws::Both;
use planner_rows::{first_plan, next_plan};

// Asks for the first plan of two networks, each with lent buffers of its own: what the two calls promise, and the laws. A network without its shut reaches
// gets the reply of the whole one, a lone reach at its new number; a network with more basins at the end, which no reach has an end at, gets the same reply.
pub fn first_of_tables(
    basins: u16,
    kinds: &[u8],
    a: &[u16],
    b: &[u16],
    basins2: u16,
    kinds2: &[u8],
    a2: &[u16],
    b2: &[u16],
    plan1: &mut [u8],
    marks1: &mut [u8],
    plan2: &mut [u8],
    marks2: &mut [u8],
) -> Both
    ensures { FirstOfTables (net_of basins kinds.now a.now b.now)
        (net_of basins2 kinds2.now a2.now b2.now)
        plan1.old marks1.old plan2.old marks2.old
        plan1.new marks1.new plan2.new marks2.new
        result.first result.second }
{
    let first = first_plan(basins, kinds, a, b, plan1, marks1);
    let second = first_plan(basins2, kinds2, a2, b2, plan2, marks2);
    Both { first, second }
}

// The same of the next plan of one setting.
pub fn next_of_tables(
    basins: u16,
    kinds: &[u8],
    a: &[u16],
    b: &[u16],
    basins2: u16,
    kinds2: &[u8],
    a2: &[u16],
    b2: &[u16],
    s: &[u8],
    plan1: &mut [u8],
    marks1: &mut [u8],
    plan2: &mut [u8],
    marks2: &mut [u8],
) -> Both
    ensures { NextOfTables (net_of basins kinds.now a.now b.now)
        (net_of basins2 kinds2.now a2.now b2.now) s.now
        plan1.old marks1.old plan2.old marks2.old
        plan1.new marks1.new plan2.new marks2.new
        result.first result.second }
{
    let first = next_plan(basins, kinds, a, b, s, plan1, marks1);
    let second = next_plan(basins2, kinds2, a2, b2, s, plan2, marks2);
    Both { first, second }
}
