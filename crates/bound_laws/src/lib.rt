// Document 02, item 2, over the running calls: what the bytes of bound gates say of the plans that first and next give. The proofs cite only what these calls
// promise.

#![tactic(auto)]

ghost use Rattle.tables.specs.Rows.{net_of};
ghost use Rattle.bound_laws.specs.Bounds.{FlapOfBound, NextOfBound};

use bound_gates::bound_gates_rows;
use planner_laws::Both;
use planner_rows::{first_plan, next_plan};

// Tells the bound gates of one network and asks for the first plan of another, each with lent buffers of its own: what the two calls promise and, where the second is
// the first with a gated reach made a flap, that it has a plan exactly as the byte of that reach says; where it is the first itself, that the plan hangs the bound
// gates so.
pub fn flap_of_bound(
    basins: u16,
    kinds: &[u8],
    a: &[u16],
    b: &[u16],
    kinds2: &[u8],
    a2: &[u16],
    b2: &[u16],
    bytes1: &mut [u8],
    marks1: &mut [u8],
    plan2: &mut [u8],
    marks2: &mut [u8],
) -> Both
    ensures { FlapOfBound (net_of basins kinds.now a.now b.now)
        (net_of basins kinds2.now a2.now b2.now)
        bytes1.old marks1.old plan2.old marks2.old
        bytes1.new marks1.new plan2.new marks2.new
        result.first result.second }
{
    let first = bound_gates_rows(basins, kinds, a, b, bytes1, marks1);
    let second = first_plan(basins, kinds2, a2, b2, plan2, marks2);
    Both { first, second }
}

// Tells the bound gates of a network and asks for the next plan of a setting of it, each with lent buffers of its own: what the two calls promise, and that the
// plan hangs the bound gates so.
pub fn next_of_bound(
    basins: u16,
    kinds: &[u8],
    a: &[u16],
    b: &[u16],
    s: &[u8],
    bytes1: &mut [u8],
    marks1: &mut [u8],
    plan2: &mut [u8],
    marks2: &mut [u8],
) -> Both
    ensures { NextOfBound (net_of basins kinds.now a.now b.now) s.now
        bytes1.old marks1.old plan2.old marks2.old
        bytes1.new marks1.new plan2.new marks2.new
        result.first result.second }
{
    let first = bound_gates_rows(basins, kinds, a, b, bytes1, marks1);
    let second = next_plan(basins, kinds, a, b, s, plan2, marks2);
    Both { first, second }
}
