// From the line of a plan to the next line: how long the line is, and the state after it, by asking for the next plan or by a step that was taken.
// The functions are for the crates above, which have checked what they require.

#![tactic(auto)]

ghost use Rattle.std.specs.Prelude.{◌≡◌, ◌≤◌, length, IfSome};
ghost use Rattle.network.specs.Networks.{max_reaches};
ghost use Rattle.tables.specs.Rows.{net_of, gates_in, gates_held};
ghost use Rattle.listing_state.specs.Pending.{holding};
ghost use Rattle.listing_state.specs.Parts.{LineAfter, plan_length};
ghost use Rattle.line_steps.specs.Steps.{after_step, FrontStands};

use lines::{Due, due_of, due_plan};
use listing_state::Line;
use marks::MARK_BYTES;
use network::MAX_REACHES;

// The length of a plan's line.
pub fn plan_length(g: usize) -> usize
    requires { g ≤ max_reaches }
    ensures { result ≡ plan_length g }
{
    if g == 0 { 2 } else { g + 1 }
}

// The state after the line of a plan, after which so many plans may still be printed, by asking for the next plan. The plan in hand has g bytes.
pub fn asked(
    l: Line,
    setting: &mut [u8],
    left: usize,
    g: usize,
    kinds: &[u8],
    a: &[u16],
    b: &[u16],
) -> Line
    requires g_value { g ≡ gates_held (net_of l.basins kinds.now a.now b.now) }
    requires setting_len { length setting.old ≡ max_reaches }
    ensures { LineAfter (net_of l.basins kinds.now a.now b.now) (holding l setting.old) left
        (holding result setting.new) }
{
    let basins = l.basins;
    let mut old = [0u8; MAX_REACHES];
    old.copy_from_slice(setting);
    let mut marks = [0u8; MARK_BYTES];
    let answer = planner_rows::next_plan(basins, kinds, a, b, &old[..g], setting, &mut marks);
    let due = due_of(answer, left);
    Line { basins, due, at: 0 }
}

// The same after a step from the plan in hand to the ways of the next, which part from it at a reach, if a plan is later. The bytes before that reach's stand.
pub fn after_step(
    l: Line,
    setting: &mut [u8],
    left: usize,
    g: usize,
    parted: Option<usize>,
    kinds: &[u8],
    ways: &[u8],
) -> Line
    requires ways_len { length ways.now ≡ length kinds.now }
    requires g_value { g ≡ gates_in kinds.now }
    requires g_in_bounds { g ≤ length setting.old }
    requires front_stands { IfSome parted (FrontStands kinds.now ways.now setting.old) }
    ensures { holding result setting.new
        ≡ after_step kinds.now ways.now parted (holding l setting.old) left g }
{
    let basins = l.basins;
    let Some(r) = parted else {
        return Line {
            basins,
            due: Due::End,
            at: 0,
        };
    };
    stepping::rewrite(kinds, ways, r, g, setting);
    let due = due_plan(left);
    Line { basins, due, at: 0 }
}
