// A gate that another reach guides, as a row says, is tried without a search.
// The functions are for the crates above, which have checked what they require.

#![tactic(auto)]

ghost use Rattle.std.specs.Prelude.{◌≡◌, ◌≤◌, ◌<◌, length, get_or};
ghost use Rattle.orienting.specs.Ready.{Ready};
ghost use Rattle.series_way.specs.Guided.{WayTaken, TriedFrom};

use half_edges::Graph;

// What stands in the row for a reach that no other guides: a 16-bit number and no Option, since the row is lent memory, fixed and small.
pub const UNGUIDED: u16 = 65535;

// The way of reach k, or 2 past the end of the row.
fn way_at(ways: &[u8], k: usize) -> u8
    ensures { result ≡ get_or ways.now k 2 }
{
    ways.get(k).copied().unwrap_or(2)
}

// The way that reach i takes from its guide, if it has one that is hung.
fn taken(guide: &[u16], ways: &[u8], i: usize) -> Option<u8>
    ensures { WayTaken guide.now ways.now i result }
{
    let h = *guide.get(i)?;
    if h >= UNGUIDED {
        return None;
    }
    let w = way_at(ways, (h / 2) as usize);
    if w > 1 {
        return None;
    }
    if h % 2 == 0 {
        return Some(w);
    }
    Some(1 - w)
}

// Gives reach i the way if that loses nothing: by its guide or, if it has none that is hung, by a search. Otherwise it is usable either way. Says whether it
// could. What it leaves in seen and in the queue is free.
pub fn try_guided(
    graph: &Graph,
    guide: &[u16],
    ways: &mut [u8],
    i: usize,
    way: u8,
    seen: &mut [u16],
    queue: &mut [u16],
) -> bool
    requires ready { Ready graph.now ways.old seen.old queue.old }
    requires i_in_bounds { i < length graph.now.a.now }
    requires way_bound { way ≤ 1 }
    ensures { TriedFrom graph.now.basins guide.now graph.now.a.now graph.now.b.now ways.old i way ways.new result }
{
    let Some(w) = taken(guide, ways, i) else {
        return orienting::try_way(graph, ways, i, way, seen, queue);
    };
    if w == way {
        ways[i] = way;
        return true;
    }
    ways[i] = 2;
    false
}
