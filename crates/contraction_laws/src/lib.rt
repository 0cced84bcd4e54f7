// Document 02, item 4, over the running calls: a network is contracted, and first, next, the bound gates and contracting again are asked of what came out. The proofs
// cite only what these calls promise.

#![tactic(auto)]

ghost use Rattle.std.specs.Prelude.{length};
ghost use Rattle.network.specs.Replies.{first_reply, next_reply};
ghost use Rattle.tables.specs.Rows.{net_of};
ghost use Rattle.contraction_laws.specs.Contractions.{CameOut, ReplyOfContracted, BoundOfContracted, ContractedTwice};

use bound_gates::bound_gates_rows;
use contraction::contract_rows;
use network::{Counts, Refusal};
use packing::MAX_ROWS;
use planner_rows::{first_plan, next_plan};
use replies::Reply;

// What a network is contracted to, in rows with room for every network.
#[derive(Drop)]
pub struct ContractedRows {
    answer: Result<Counts, Refusal>,
    kinds: [u8; MAX_ROWS],
    a: [u16; MAX_ROWS],
    b: [u16; MAX_ROWS],
}

// Rows with room for every network, of which nothing is said: what stands in them does not matter.
#[derive(Drop)]
struct NewRows {
    kinds: [u8; MAX_ROWS],
    a: [u16; MAX_ROWS],
    b: [u16; MAX_ROWS],
}

fn empty() -> NewRows {
    NewRows {
        kinds: [0; MAX_ROWS],
        a: [0; MAX_ROWS],
        b: [0; MAX_ROWS],
    }
}

// Contracts a network.
fn contracted(basins: u16, kinds: &[u8], a: &[u16], b: &[u16], rows: NewRows) -> ContractedRows
    ensures { CameOut (net_of basins kinds.now a.now b.now) result }
{
    let mut kinds2 = rows.kinds;
    let mut a2 = rows.a;
    let mut b2 = rows.b;
    let answer = contract_rows(basins, kinds, a, b, &mut kinds2, &mut a2, &mut b2);
    ContractedRows {
        answer,
        kinds: kinds2,
        a: a2,
        b: b2,
    }
}

// Contracts a network and asks for the first plan of what came out: the same plan as that of the network itself, or the same number.
pub fn first_of_contracted(
    basins: u16,
    kinds: &[u8],
    a: &[u16],
    b: &[u16],
    plan: &mut [u8],
    marks: &mut [u8],
) -> Result<Reply, Refusal>
    ensures { ReplyOfContracted (λ N. first_reply N (length plan.old) (length marks.old))
        (net_of basins kinds.now a.now b.now) plan.old marks.old result plan.new marks.new }
{
    let c = contracted(basins, kinds, a, b, empty());
    let counts = c.answer?;
    let m = counts.reaches;
    first_plan(
        counts.basins,
        &c.kinds[..m],
        &c.a[..m],
        &c.b[..m],
        plan,
        marks,
    )
}

// The same of the next plan of a setting.
pub fn next_of_contracted(
    basins: u16,
    kinds: &[u8],
    a: &[u16],
    b: &[u16],
    s: &[u8],
    plan: &mut [u8],
    marks: &mut [u8],
) -> Result<Reply, Refusal>
    ensures { ReplyOfContracted (λ N. next_reply N s.now (length plan.old) (length marks.old))
        (net_of basins kinds.now a.now b.now) plan.old marks.old result plan.new marks.new }
{
    let c = contracted(basins, kinds, a, b, empty());
    let counts = c.answer?;
    let m = counts.reaches;
    next_plan(
        counts.basins,
        &c.kinds[..m],
        &c.a[..m],
        &c.b[..m],
        s,
        plan,
        marks,
    )
}

// The same of the bound gates: their bytes are those of the network itself.
pub fn bound_of_contracted(
    basins: u16,
    kinds: &[u8],
    a: &[u16],
    b: &[u16],
    bytes: &mut [u8],
    marks: &mut [u8],
) -> Result<Reply, Refusal>
    ensures { BoundOfContracted (net_of basins kinds.now a.now b.now) bytes.old marks.old result
        bytes.new marks.new }
{
    let c = contracted(basins, kinds, a, b, empty());
    let counts = c.answer?;
    let m = counts.reaches;
    bound_gates_rows(
        counts.basins,
        &c.kinds[..m],
        &c.a[..m],
        &c.b[..m],
        bytes,
        marks,
    )
}

// Contracts a network, and contracts what came out: the same counts and the same reaches.
pub fn contract_again(basins: u16, kinds: &[u8], a: &[u16], b: &[u16]) -> ContractedRows
    ensures { ContractedTwice (net_of basins kinds.now a.now b.now) result }
{
    let c = contracted(basins, kinds, a, b, empty());
    match c.answer {
        Err(_) => c,
        Ok(counts) => {
            let m = counts.reaches;
            contracted(counts.basins, &c.kinds[..m], &c.a[..m], &c.b[..m], empty())
        }
    }
}
