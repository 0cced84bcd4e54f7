// The first plan in lent working memory, of any table and of an accepted one whose rows are of one length, and the check of a setting of such a one.
// These functions are for the planner's calls; what they require those have checked. What the `.._in` leave in working memory is free.

#![tactic(auto)]

ghost use Rattle.std.specs.Prelude.{◌≡◌, Ok};
ghost use Rattle.network.specs.Plans.{strongly_connected_under};
ghost use Rattle.network.specs.Replies.{first_answer};
ghost use Rattle.tables.specs.Rows.{net_of};
ghost use Rattle.seeking.specs.Levels.{Level};
ghost use Rattle.finder.specs.Rooms.{Space};
ghost use Rattle.replies.specs.Answers.{Replied, FirstCall};
ghost use Rattle.replies.specs.Reports.{Lent};

use half_edges::HALF_EDGES;
use network::{MAX_BASINS, MAX_REACHES, Refusal};
use refusals::first_refusal;
use replies::{Reply, report};

// The first plan of an accepted table whose rows are of one length, or its finding, in lent working memory. The buffers are long enough.
pub fn first_in(
    n: usize,
    kinds: &[u8],
    a: &[u16],
    b: &[u16],
    plan: &mut [u8],
    marks: &mut [u8],
    ways: &mut [u8],
    head: &mut [u16; MAX_BASINS],
    next: &mut [u16; HALF_EDGES],
    seen: &mut [u16; MAX_BASINS],
    queue: &mut [u16; MAX_BASINS],
) -> Reply
    requires lent { Lent n kinds.now a.now b.now plan.old marks.old }
    requires space { Space ways.old head.old next.old }
    ensures { Replied (first_answer (net_of n kinds.now a.now b.now)) plan.old
        marks.old plan.new marks.new (Ok result) }
{
    let m = kinds.len();
    let oriented = &mut ways[..m];
    let found = finder::find_first(n, kinds, a, b, oriented, head, next, seen, queue);
    report(found, n, kinds, oriented, seen, plan, marks)
}

// The first plan of a network, or the finding that shows why there is none, in lent working memory. Refuses: 1, 2, 3, 7.
pub fn first_plan_in(
    basins: u16,
    kinds: &[u8],
    a: &[u16],
    b: &[u16],
    plan: &mut [u8],
    marks: &mut [u8],
    ways: &mut [u8],
    head: &mut [u16; MAX_BASINS],
    next: &mut [u16; HALF_EDGES],
    seen: &mut [u16; MAX_BASINS],
    queue: &mut [u16; MAX_BASINS],
) -> Result<Reply, Refusal>
    requires { Space ways.old head.old next.old }
    ensures { FirstCall (net_of basins kinds.now a.now b.now) plan.old marks.old result
        plan.new marks.new }
{
    first_refusal(basins, kinds, a, b, plan.len(), marks.len())?;
    let n = basins as usize;
    let m = tables::row_count(kinds, a, b);
    Ok(first_in(
        n,
        &kinds[..m],
        &a[..m],
        &b[..m],
        plan,
        marks,
        ways,
        head,
        next,
        seen,
        queue,
    ))
}

// The check of a setting of an accepted table whose rows are of one length, in lent working memory.
fn check_in(
    n: usize,
    kinds: &[u8],
    a: &[u16],
    b: &[u16],
    setting: &[u8],
    ways: &mut [u8],
    head: &mut [u16; MAX_BASINS],
    next: &mut [u16; HALF_EDGES],
    seen: &mut [u16; MAX_BASINS],
    queue: &mut [u16; MAX_BASINS],
) -> bool
    requires level { Level n kinds.now a.now b.now }
    requires space { Space ways.old head.old next.old }
    ensures { result ≡ strongly_connected_under (net_of n kinds.now a.now b.now) setting.now }
{
    let m = kinds.len();
    finder::strongly_connected_under(
        n,
        kinds,
        a,
        b,
        setting,
        &mut ways[..m],
        head,
        next,
        seen,
        queue,
    )
}

// The same, with working memory of its own.
pub fn check_accepted(n: usize, kinds: &[u8], a: &[u16], b: &[u16], setting: &[u8]) -> bool
    requires { Level n kinds.now a.now b.now }
    ensures { result ≡ strongly_connected_under (net_of n kinds.now a.now b.now) setting.now }
{
    let mut ways = [0u8; MAX_REACHES];
    let mut head = [0u16; MAX_BASINS];
    let mut next = [0u16; HALF_EDGES];
    let mut seen = [0u16; MAX_BASINS];
    let mut queue = [0u16; MAX_BASINS];
    check_in(
        n, kinds, a, b, setting, &mut ways, &mut head, &mut next, &mut seen, &mut queue,
    )
}
