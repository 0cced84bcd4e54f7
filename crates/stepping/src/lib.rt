// The plans of a network one after the other, in working memory that is prepared once: the ways of the plan in hand and the index of the
// half-edges are kept from plan to plan, so that a step searches only where it turns a gate.
// These functions are for the calls above; what they require those have checked.

#![tactic(auto)]

ghost use Rattle.std.specs.Prelude.{◌≡◌, ◌++◌, ◌≤◌, length, take, drop};
ghost use Rattle.tables.specs.Rows.{gates_in, bytes_row};
ghost use Rattle.orienting.specs.Ready.{Ready};
ghost use Rattle.stepping.specs.Advances.{gates_before, AdvancedFrom};

use half_edges::Graph;

// From a plan, whose ways stand in `ways`, to the next: its ways stand there then. A gate that has one way in all plans is not tried if `tried` has another
// kind in its place; one that another reach guides, as the row has it, takes its way from that.
// Returns the number of the gate at which the next parts from the plan; if no plan is later, the ways are free. What it leaves in `under`, in seen and in the
// queue is free.
pub fn advance(
    graph: &Graph,
    guide: &[u16],
    tried: &[u8],
    under: &mut [u8],
    ways: &mut [u8],
    seen: &mut [u16],
    queue: &mut [u16],
) -> Option<usize>
    requires ready { Ready graph.now ways.old seen.old queue.old }
    requires tried_len { length tried.now ≡ length graph.now.a.now }
    requires under_len { length under.old ≡ length ways.old }
    ensures { AdvancedFrom graph.now.basins guide.now tried.now graph.now.a.now graph.now.b.now ways.old ways.new result }
{
    under.copy_from_slice(ways);
    let m = graph.a.len();
    seeking::step_from(graph, guide, tried, under, ways, m, seen, queue)
}

// Puts the bytes of the gates from reach r on into a plan in which those of the gates before it stand. The reaches have g gates.
pub fn rewrite(kinds: &[u8], ways: &[u8], r: usize, g: usize, plan: &mut [u8])
    requires ways_len { length ways.now ≡ length kinds.now }
    requires r_in_bounds { r ≤ length kinds.now }
    requires g_value { g ≡ gates_in kinds.now }
    requires g_in_bounds { g ≤ length plan.old }
    requires plan_value { take (gates_before kinds.now r) plan.old ≡ take (gates_before kinds.now r) (bytes_row kinds.now ways.now) }
    ensures { plan.new ≡ bytes_row kinds.now ways.now ++ drop g plan.old }
{
    let rest = &kinds[r..];
    let k = tables::count_gates(rest);
    tables::gather(rest, &ways[r..], &mut plan[g - k..]);
}
