// The first plan and the next, looked for in lent working memory over an accepted table whose rows are of one length.
// These functions are for the planner; what they require it has checked. What the searches leave in working memory is free but for two things: the
// ways, where a plan is found, and what is noted for each basin in seen, where a finding is.

#![tactic(auto)]

ghost use Rattle.std.specs.Prelude.{◌≡◌};
ghost use Rattle.network.specs.Plans.{strongly_connected_under};
ghost use Rattle.tables.specs.Rows.{net_of};
ghost use Rattle.seeking.specs.Found.{FirstFound, NextFound};
ghost use Rattle.finder.specs.Rooms.{Room, Preparable, Prepared, Seekable};

use half_edges::{Graph, HALF_EDGES};
use network::MAX_BASINS;
use seeking::Found;

// Fills the working memory: the ways of the reaches under a setting, and the index of their half-edges.
pub fn prepare(
    n: usize,
    kinds: &[u8],
    a: &[u16],
    b: &[u16],
    setting: &[u8],
    ways: &mut [u8],
    head: &mut [u16; MAX_BASINS],
    next: &mut [u16; HALF_EDGES],
)
    requires { Preparable n kinds.now a.now b.now ways.old head.old next.old }
    ensures { Prepared n kinds.now a.now b.now setting.now
        ways.new head.new next.new }
{
    tables::orient(kinds, setting, ways);
    half_edges::index(n, a, b, head, next);
}

// Whether everything reaches everything under the setting, in lent working memory. What it leaves there is free.
pub fn strongly_connected_under(
    n: usize,
    kinds: &[u8],
    a: &[u16],
    b: &[u16],
    setting: &[u8],
    ways: &mut [u8],
    head: &mut [u16; MAX_BASINS],
    next: &mut [u16; HALF_EDGES],
    seen: &mut [u16; MAX_BASINS],
    queue: &mut [u16; MAX_BASINS],
) -> bool
    requires { Room n kinds.now a.now b.now ways.old head.old next.old }
    ensures { result ≡ strongly_connected_under (net_of n kinds.now a.now b.now) setting.now }
{
    prepare(n, kinds, a, b, setting, ways, head, next);
    let graph = Graph {
        basins: n,
        a,
        b,
        head,
        next,
    };
    orienting::shut_in_basin(&graph, kinds, ways, seen, queue).is_none()
}

// Searches for the first plan, in lent working memory: the ways that it leaves are the plan's, and what it notes is the side of a finding.
pub fn find_first(
    n: usize,
    kinds: &[u8],
    a: &[u16],
    b: &[u16],
    ways: &mut [u8],
    head: &mut [u16; MAX_BASINS],
    next: &mut [u16; HALF_EDGES],
    seen: &mut [u16; MAX_BASINS],
    queue: &mut [u16; MAX_BASINS],
) -> Found
    requires { Room n kinds.now a.now b.now ways.old head.old next.old }
    ensures { FirstFound (net_of n kinds.now a.now b.now) ways.new seen.new result }
{
    prepare(n, kinds, a, b, &[], ways, head, next);
    let graph = Graph {
        basins: n,
        a,
        b,
        head,
        next,
    };
    seeking::first_from(&graph, kinds, ways, seen, queue)
}

// Searches for the next plan of a setting, in lent working memory: the ways that it leaves are the plan's, and what it notes is the side of a finding.
pub fn find_next(
    n: usize,
    kinds: &[u8],
    a: &[u16],
    b: &[u16],
    setting: &[u8],
    under: &mut [u8],
    ways: &mut [u8],
    head: &mut [u16; MAX_BASINS],
    next: &mut [u16; HALF_EDGES],
    seen: &mut [u16; MAX_BASINS],
    queue: &mut [u16; MAX_BASINS],
) -> Option<Found>
    requires { Seekable n kinds.now a.now b.now setting.now under.old ways.old head.old next.old }
    ensures { NextFound (net_of n kinds.now a.now b.now) setting.now
        ways.new seen.new result }
{
    prepare(n, kinds, a, b, setting, under, head, next);
    let graph = Graph {
        basins: n,
        a,
        b,
        head,
        next,
    };
    following::next_of(&graph, kinds, setting, under, ways, seen, queue)
}
