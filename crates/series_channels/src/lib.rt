// The finder of channels: from a reach in service, basins at which just two reaches in service end are followed from reach to reach, and a row says which
// reach guides each gate that was come to. It reads the index of half-edges; there is no search. Which channels are found is free: no promise rests on it.
// The functions are for the crates above, which have checked what they require.

#![tactic(auto)]

ghost use Rattle.std.specs.Prelude.{◌≡◌, ◌/◌, ◌≤◌, ◌<◌, length, get_or};
ghost use Rattle.half_edges.specs.Ends.{halves, end_of};
ghost use Rattle.half_edges.specs.Chains.{no_half};
ghost use Rattle.basins.specs.Wet.{Tabled};
ghost use Rattle.series_channels.specs.Channels.{Partner, other_half, guide_of, GuideNoted, GuidingStill, FindableIf, GuidesFound};

use half_edges::{Graph, NO_HALF};
use tables::{KIND_FLAP, KIND_GATED, KIND_TWO_WAY};

// Basins with fewer half-edges than this are looked through: beside two in service there may be shut ones. No promise rests on it.
const LOOKED: usize = 8;

// It pays to follow channels if so many of the last gates, of those that are looked at, end at a basin of one: a step from plan to plan begins with the
// last gates. No promise rests on it.
const LAST: usize = 16;

const WORTH: usize = 4;

// The basin at which half-edge h stands.
fn end_of(a: &[u16], b: &[u16], h: u16) -> u16
    requires h_bound { h < halves a.now }
    requires b_len { length b.now ≡ length a.now }
    ensures { result ≡ end_of a.now b.now h }
{
    let i = (h / 2) as usize;
    if h % 2 == 0 {
        return a[i];
    }
    b[i]
}

// The other half-edge in service at the basin of h, if there is just one, of another reach; else NO_HALF.
fn partner(graph: &Graph, kinds: &[u8], h: u16) -> u16
    requires kinds_len { length kinds.now ≡ length graph.now.a.now }
    requires h_bound { h < halves graph.now.a.now }
    ensures { Partner kinds.now graph.now.a.now graph.now.b.now h result }
{
    let v = end_of(graph.a, graph.b, h);
    let mut o = graph.head[v as usize];
    let mut found = NO_HALF;
    for _ in 0..LOOKED {
        if o >= NO_HALF {
            if found / 2 == h / 2 {
                return NO_HALF;
            }
            return found;
        }
        let here = o;
        o = graph.next[here as usize];
        if here == h {
            continue;
        }
        if kinds[(here / 2) as usize] > KIND_TWO_WAY {
            continue;
        }
        if found < NO_HALF {
            return NO_HALF;
        }
        found = here;
    }
    NO_HALF
}

// The other half-edge of the reach of h.
fn other_half(h: u16) -> u16
    requires { h < no_half }
    ensures { result ≡ other_half h }
{
    if h % 2 == 0 {
        return h + 1;
    }
    2 * (h / 2)
}

// What the row says of a reach to which a channel from `start` comes by o.
fn guide_of(start: u16, o: u16) -> u16
    requires { start < no_half }
    ensures { result ≡ guide_of start o }
{
    if start % 2 == o % 2 {
        return 2 * (start / 2) + 1;
    }
    2 * (start / 2)
}

// Notes which reach guides the one of half-edge o, if it is a gate of which nothing is noted yet.
fn note(kinds: &[u8], start: u16, o: u16, guide: &mut [u16])
    requires o_bound { o < halves kinds.now }
    requires guide_len { length guide.old ≡ length kinds.now }
    requires start_lt_no_half { start < no_half }
    ensures { GuideNoted guide.old start o guide.new }
{
    let k = (o / 2) as usize;
    if kinds[k] != KIND_GATED {
        return;
    }
    if guide[k] < NO_HALF {
        return;
    }
    let x = guide_of(start, o);
    guide[k] = x;
}

// Follows the channel that leaves a reach in service at its half-edge `start`, up to the next flap, and notes that this reach guides its gates.
fn follow(graph: &Graph, kinds: &[u8], start: u16, guide: &mut [u16])
    requires kinds_len { length kinds.now ≡ length graph.now.a.now }
    requires start_bound { start < halves graph.now.a.now }
    requires start_bound_2 { get_or kinds.now (start / 2) 0 ≤ 2 }
    requires guide_len { length guide.old ≡ length graph.now.a.now }
    ensures { GuidingStill kinds.now graph.now.a.now graph.now.b.now guide.old guide.new }
{
    let mut h = start;
    for _ in 0..graph.a.len() {
        let o = partner(graph, kinds, h);
        if o >= NO_HALF {
            return;
        }
        if o / 2 == start / 2 {
            return;
        }
        if kinds[(o / 2) as usize] == KIND_FLAP {
            return;
        }
        note(kinds, start, o, guide);
        h = other_half(o);
    }
}

// Follows the channels on both sides of each reach of the kind for which nothing is noted yet.
fn pass(graph: &Graph, kinds: &[u8], kind: u8, guide: &mut [u16])
    requires kinds_len { length kinds.now ≡ length graph.now.a.now }
    requires kind_bound { kind ≤ 2 }
    requires guide_len { length guide.old ≡ length graph.now.a.now }
    ensures { GuidingStill kinds.now graph.now.a.now graph.now.b.now guide.old guide.new }
{
    for (i, &k) in kinds.iter().enumerate() {
        if k != kind {
            continue;
        }
        if guide[i] < NO_HALF {
            continue;
        }
        let h = (2 * i) as u16;
        follow(graph, kinds, h, guide);
        follow(graph, kinds, h + 1, guide);
    }
}

// Whether reach i has an end at a basin of a channel.
fn in_channel(graph: &Graph, kinds: &[u8], i: usize) -> bool
    requires kinds_len { length kinds.now ≡ length graph.now.a.now }
    requires i_in_bounds { i < length graph.now.a.now }
{
    let h = (2 * i) as u16;
    partner(graph, kinds, h) < NO_HALF || partner(graph, kinds, h + 1) < NO_HALF
}

// Whether it is worth following channels. No promise rests on it.
fn worth(graph: &Graph, kinds: &[u8]) -> bool
    requires kinds_len { length kinds.now ≡ length graph.now.a.now }
{
    let mut gates = 0;
    let mut found = 0;
    for i in (0..graph.a.len()).rev() {
        if kinds[i] != KIND_GATED {
            continue;
        }
        if gates >= LAST {
            break;
        }
        gates += 1;
        if in_channel(graph, kinds, i) {
            found += 1;
        }
    }
    found >= WORTH
}

// Says for each gate of a channel that was found which reach guides it: a flap of the channel, or else its lowest-numbered gate. Returns how many entries of
// the row count: all, or none where it is not worth it.
fn find(graph: &Graph, kinds: &[u8], guide: &mut [u16]) -> usize
    requires kinds_len { length kinds.now ≡ length graph.now.a.now }
    requires guide_len { length guide.old ≡ length graph.now.a.now }
    ensures { GuidesFound kinds.now graph.now.a.now graph.now.b.now guide.new result }
{
    if !worth(graph, kinds) {
        return 0;
    }
    let m = graph.a.len();
    half_edges::fill_row(m, NO_HALF, guide);
    pass(graph, kinds, KIND_FLAP, guide);
    pass(graph, kinds, KIND_GATED, guide);
    m
}

// The same where the table and the index are known to be right; otherwise no entry counts.
pub fn find_if(
    known: bool,
    basins: u16,
    kinds: &[u8],
    a: &[u16],
    b: &[u16],
    head: &[u16],
    next: &[u16],
    guide: &mut [u16],
) -> usize
    requires { FindableIf basins kinds.now a.now b.now head.now next.now guide.old known }
    ensures { GuidesFound kinds.now a.now b.now guide.new result }
{
    if known {
        let m = a.len();
        let graph = Graph {
            basins: basins as usize,
            a,
            b,
            head,
            next,
        };
        return find(&graph, kinds, &mut guide[..m]);
    }
    0
}
