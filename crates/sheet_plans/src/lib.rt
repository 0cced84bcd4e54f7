// What of the sheets asks the planner, whose promises alone say what is a plan and what a network gets: what a sheet says is judged, and a
// network's reply is put down as a sheet. For the crate `sheet_rows`.
// The functions with a `requires` are for the crates above, which have checked it.

#![tactic(auto)]

ghost use Rattle.std.specs.Prelude.{◌≡◌, length};
ghost use Rattle.network.specs.Networks.{max_reaches};
ghost use Rattle.network.specs.Marks.{mark_bytes};
ghost use Rattle.tables.specs.Rows.{net_of};
ghost use Rattle.sheet_format.specs.Answers.{PlanJudged, ReplyWritten};

use network::Refusal;
use replies::Verdict;

// Whether the bytes that a sheet says are a plan of the network. Refuses: 1, 2, 3, 8.
pub fn judge_plan(
    basins: u16,
    kinds: &[u8],
    a: &[u16],
    b: &[u16],
    bytes: &[u8],
) -> Result<usize, Refusal>
    ensures { PlanJudged (net_of basins kinds.now a.now b.now) bytes.now result }
{
    if planner_rows::check(basins, kinds, a, b, bytes)? {
        Ok(bytes.len())
    } else {
        Err(Refusal::BadSetting)
    }
}

// The network's reply as a sheet, with lent working memory for the plan and the marks. What it leaves there is free.
pub fn write_reply_in(
    basins: u16,
    kinds: &[u8],
    a: &[u16],
    b: &[u16],
    plan: &mut [u8],
    marks: &mut [u8],
    out: &mut [u8],
) -> Result<usize, Refusal>
    requires plan_len { length plan.old ≡ max_reaches }
    requires marks_len { length marks.old ≡ mark_bytes }
    ensures { ReplyWritten (net_of basins kinds.now a.now b.now) out.old result out.new }
{
    let reply = planner_rows::first_plan(basins, kinds, a, b, plan, marks)?;
    match reply.verdict {
        Verdict::Plan => sheet_writing::write_first(kinds, a, b, plan, out),
        Verdict::ShutIn(_) => sheet_writing::write_shut_in(marks, out),
        Verdict::Lone(finding) => sheet_writing::write_lone(finding.reach, marks, out),
    }
}
