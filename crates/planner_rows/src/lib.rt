// The planner over a reach table lent as rows of numbers: the check of a setting, the first plan, the next plan and the findings.
// Each call refuses bad input by number and has no `requires`; what it replies and every byte of lent memory afterwards is in its `ensures`.

#![tactic(auto)]

ghost use Rattle.tables.specs.Rows.{net_of};
ghost use Rattle.replies.specs.Answers.{CheckCall, FirstCall, NextCall};

use half_edges::HALF_EDGES;
use network::{MAX_BASINS, MAX_REACHES, Refusal};
use planning::{check_accepted, first_plan_in};
use planning_next::next_accepted;
use refusals::{check_refusal, next_refusal};
use replies::Reply;

// The first plan of a network, or the finding that shows why there is none. Refuses: 1, 2, 3, 7.
pub fn first_plan(
    basins: u16,
    kinds: &[u8],
    a: &[u16],
    b: &[u16],
    plan: &mut [u8],
    marks: &mut [u8],
) -> Result<Reply, Refusal>
    ensures { FirstCall (net_of basins kinds.now a.now b.now) plan.old marks.old result
        plan.new marks.new }
{
    let mut ways = [0u8; MAX_REACHES];
    let mut head = [0u16; MAX_BASINS];
    let mut next = [0u16; HALF_EDGES];
    let mut seen = [0u16; MAX_BASINS];
    let mut queue = [0u16; MAX_BASINS];
    first_plan_in(
        basins, kinds, a, b, plan, marks, &mut ways, &mut head, &mut next, &mut seen, &mut queue,
    )
}

// Whether a setting is a plan of the network. Refuses: 1, 2, 3, 8. Writes nothing.
pub fn check(
    basins: u16,
    kinds: &[u8],
    a: &[u16],
    b: &[u16],
    setting: &[u8],
) -> Result<bool, Refusal>
    ensures { CheckCall (net_of basins kinds.now a.now b.now) setting.now result }
{
    check_refusal(basins, kinds, a, b, setting)?;
    let m = tables::row_count(kinds, a, b);
    Ok(check_accepted(basins as usize, &kinds[..m], &a[..m], &b[..m], setting))
}

// The next plan of a setting of the network, itself a plan or not; or the finding that shows why there is none, or that no plan is later.
// Refuses: 1, 2, 3, 8, 7, 11.
pub fn next_plan(
    basins: u16,
    kinds: &[u8],
    a: &[u16],
    b: &[u16],
    setting: &[u8],
    plan: &mut [u8],
    marks: &mut [u8],
) -> Result<Reply, Refusal>
    ensures { NextCall (net_of basins kinds.now a.now b.now) setting.now plan.old
        marks.old result plan.new marks.new }
{
    next_refusal(basins, kinds, a, b, setting, plan.len(), marks.len())?;
    let n = basins as usize;
    let m = tables::row_count(kinds, a, b);
    next_accepted(n, &kinds[..m], &a[..m], &b[..m], setting, plan, marks)
}
