// The next plan of a setting of an accepted table whose rows are of one length, in working memory of its own.
// These functions are for the planner's calls; what they require those have checked. What `next_in` leaves in working memory is free.

#![tactic(auto)]

ghost use Rattle.std.specs.Prelude.{◌≡◌, true, length};
ghost use Rattle.network.specs.Networks.{max_reaches};
ghost use Rattle.network.specs.Settings.{is_setting};
ghost use Rattle.network.specs.Replies.{next_answer};
ghost use Rattle.tables.specs.Rows.{net_of};
ghost use Rattle.finder.specs.Rooms.{Space};
ghost use Rattle.replies.specs.Answers.{Replied};
ghost use Rattle.replies.specs.Reports.{Lent};

use half_edges::HALF_EDGES;
use network::{MAX_BASINS, MAX_REACHES, Refusal};
use replies::{Reply, report};

// The next plan of a setting of an accepted table whose rows are of one length, or its finding, or that no plan is later, in lent working memory.
// The setting fits and the buffers are long enough.
fn next_in(
    n: usize,
    kinds: &[u8],
    a: &[u16],
    b: &[u16],
    setting: &[u8],
    plan: &mut [u8],
    marks: &mut [u8],
    under: &mut [u8],
    ways: &mut [u8],
    head: &mut [u16; MAX_BASINS],
    next: &mut [u16; HALF_EDGES],
    seen: &mut [u16; MAX_BASINS],
    queue: &mut [u16; MAX_BASINS],
) -> Result<Reply, Refusal>
    requires lent { Lent n kinds.now a.now b.now plan.old marks.old }
    requires setting_value { is_setting (net_of n kinds.now a.now b.now) setting.now ≡ true }
    requires space { Space ways.old head.old next.old }
    requires under_len { length under.old ≡ max_reaches }
    ensures { Replied (next_answer (net_of n kinds.now a.now b.now) setting.now)
        plan.old marks.old plan.new marks.new result }
{
    let m = kinds.len();
    let oriented = &mut ways[..m];
    let sought = finder::find_next(
        n,
        kinds,
        a,
        b,
        setting,
        &mut under[..m],
        oriented,
        head,
        next,
        seen,
        queue,
    );
    match sought {
        None => Err(Refusal::LastPlan),
        Some(found) => Ok(report(found, n, kinds, oriented, seen, plan, marks)),
    }
}

// The same, with working memory of its own.
pub fn next_accepted(
    n: usize,
    kinds: &[u8],
    a: &[u16],
    b: &[u16],
    setting: &[u8],
    plan: &mut [u8],
    marks: &mut [u8],
) -> Result<Reply, Refusal>
    requires lent { Lent n kinds.now a.now b.now plan.old marks.old }
    requires setting_value { is_setting (net_of n kinds.now a.now b.now) setting.now ≡ true }
    ensures { Replied (next_answer (net_of n kinds.now a.now b.now) setting.now)
        plan.old marks.old plan.new marks.new result }
{
    let mut under = [0u8; MAX_REACHES];
    let mut ways = [0u8; MAX_REACHES];
    let mut head = [0u16; MAX_BASINS];
    let mut next = [0u16; HALF_EDGES];
    let mut seen = [0u16; MAX_BASINS];
    let mut queue = [0u16; MAX_BASINS];
    next_in(
        n, kinds, a, b, setting, plan, marks, &mut under, &mut ways, &mut head, &mut next,
        &mut seen, &mut queue,
    )
}
