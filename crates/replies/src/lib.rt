// The planner's replies: a plan or one of two findings, refusals by number, and how what was found is written down in the lent buffers.
// The functions with a `requires` are for the crates above, which have checked it.

#![tactic(auto)]

ghost use Rattle.std.specs.Prelude.{◌≡◌, ◌≤◌, length};
ghost use Rattle.network.specs.Marks.{mark_bytes};
ghost use Rattle.marks.specs.Sets.{marked_set};
ghost use Rattle.replies.specs.Reports.{MarksWritten, Reportable, Reported};

use seeking::Found;

// A finding: the number of the lone reach (0 where the network is shut in) and the count of marked basins.
#[derive(Clone, Copy)]
pub struct Finding {
    pub reach: u16,
    pub count: u16,
}

// A plan, which stands in the plan buffer, or one of two findings, whose marks stand in the marks buffer.
#[derive(Clone, Copy)]
pub enum Verdict {
    Plan,
    ShutIn(Finding),
    Lone(Finding),
}

// What a network gets if it is not refused by number only.
#[derive(Clone, Copy)]
pub struct Reply {
    pub verdict: Verdict,
}

// Marks the basins that are noted as reached, and counts them.
fn write_marks(n: usize, seen: &[u16], marks: &mut [u8]) -> u16
    requires n_in_bounds { n ≤ length seen.now }
    requires mark_bytes_in_bounds { mark_bytes ≤ length marks.old }
    ensures { MarksWritten (marked_set n seen.now) marks.old marks.new result }
{
    marks::put_marks(n, seen, marks);
    marks::count_marks(marks)
}

// Writes down what was found, and replies.
pub fn report(
    found: Found,
    n: usize,
    kinds: &[u8],
    ways: &[u8],
    seen: &[u16],
    plan: &mut [u8],
    marks: &mut [u8],
) -> Reply
    requires { Reportable n kinds.now ways.now seen.now plan.old marks.old found }
    ensures { Reported n kinds.now ways.now seen.now found plan.old marks.old
        plan.new marks.new result }
{
    match found {
        Found::Closed => {
            let count = write_marks(n, seen, marks);
            Reply {
                verdict: Verdict::ShutIn(Finding { reach: 0, count }),
            }
        }
        Found::Bridge(r) => {
            let count = write_marks(n, seen, marks);
            let reach = r as u16;
            Reply {
                verdict: Verdict::Lone(Finding { reach, count }),
            }
        }
        Found::Oriented => {
            tables::gather(kinds, ways, plan);
            Reply {
                verdict: Verdict::Plan,
            }
        }
    }
}
