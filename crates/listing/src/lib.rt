// The lister's text: all that is printed for a network file, a lent buffer at a time.
// `listing_state::start` reads the file and finds the first plan; `fill` puts the next bytes of the text into a buffer and hands back the state after it.
// No call for users has a `requires`.

#![tactic(auto)]

pub mod laws;

ghost use Rattle.std.specs.Prelude.{◌≡◌, ◌≤◌, length, take, drop};
ghost use Rattle.network.specs.Networks.{max_reaches};
ghost use Rattle.finder.specs.Rooms.{Space};
ghost use Rattle.lines.specs.Puts.{Put};
ghost use Rattle.series_channels.specs.Channels.{Guiding};
ghost use Rattle.listing.specs.Keeping.{Kept};
ghost use Rattle.listing_state.specs.Pending.{holding, line_of, Filling};
ghost use Rattle.tables.specs.Rows.{net_of, gates_held};
ghost use Rattle.listing_state.specs.Parts.{LineAfter, Turned};

use half_edges::{Graph, HALF_EDGES};
use line_steps::{after_step, asked, plan_length};
use lines::{Due, put_end, put_more, put_plan, put_refused};
use listing_state::{Filled, Line, Lister};
use network::{MAX_BASINS, MAX_REACHES};
use priming::prime;
use series_channels::find_if;
use tables::{gates_held, least};

// A line; and, of the working memory, the first reach of those that were looked at for bound gates (no promise rests on it).
#[derive(Drop)]
struct Turn {
    line: Line,
    known: usize,
}

// The line after so many bytes were put into the buffer.
#[derive(Drop)]
struct Laid {
    line: Line,
    count: usize,
}

// Puts what is left of a line, as much as the buffer holds. The plan in hand has g bytes.
fn put_line(l: Line, setting: &[u8], g: usize, out: &mut [u8]) -> usize
    requires { g ≤ length setting.now }
    ensures { Put (drop l.at (line_of l.due (take g setting.now))) out.old out.new result }
{
    match l.due {
        Due::Plan(_) => put_plan(&setting[..g], l.at, out),
        Due::More => put_more(l.at, out),
        Due::End => put_end(l.at, out),
        Due::Refused(n) => put_refused(n, l.at, out),
    }
}

// The state after the line of a plan: by a step where the working memory stands at the plan in hand, which it then does again, and else by asking: the
// working memory is then free, as it was. Gates that are found bound are tried no more, and gates that another reach guides without a search.
fn line_after(
    l: Line,
    setting: &mut [u8],
    left: usize,
    g: usize,
    standing: bool,
    known: usize,
    guide: &[u16],
    kinds: &[u8],
    a: &[u16],
    b: &[u16],
    tried: &mut [u8],
    under: &mut [u8],
    ways: &mut [u8],
    head: &[u16; MAX_BASINS],
    next: &[u16; HALF_EDGES],
    seen: &mut [u16; MAX_BASINS],
    queue: &mut [u16; MAX_BASINS],
) -> Turn
    requires g_value { g ≡ gates_held (net_of l.basins kinds.now a.now b.now) }
    requires kept { Kept l.basins kinds.now tried.old a.now b.now (Due.Plan left) (take g setting.old) under.old ways.old head.now
        next.now standing }
    requires setting_len { length setting.old ≡ max_reaches }
    requires guiding { Guiding kinds.now a.now b.now guide.now }
    ensures line_after { LineAfter (net_of l.basins kinds.now a.now b.now) (holding l setting.old) left
        (holding result.line setting.new) }
    ensures kept_2 { Kept l.basins kinds.now tried.new a.now b.now result.line.due (take g setting.new)
        under.new ways.new head.now next.now standing }
{
    if standing {
        let graph = Graph {
            basins: l.basins as usize,
            a,
            b,
            head,
            next,
        };
        let parted = stepping::advance(&graph, guide, tried, under, ways, seen, queue);
        let line = after_step(l, setting, left, g, parted, kinds, ways);
        let known = match parted {
            Some(r) => skipping::note_bound(
                &graph, guide, kinds, tried, under, ways, r, known, seen, queue,
            ),
            None => known,
        };
        return Turn { line, known };
    }
    let line = asked(l, setting, left, g, kinds, a, b);
    Turn { line, known }
}

// The state with something left of its line, if anything is left: where the line of a plan is printed, the state after it. What it leaves in working memory
// is as `line_after` says.
fn turned(
    l: Line,
    setting: &mut [u8],
    g: usize,
    standing: bool,
    known: usize,
    guide: &[u16],
    kinds: &[u8],
    a: &[u16],
    b: &[u16],
    tried: &mut [u8],
    under: &mut [u8],
    ways: &mut [u8],
    head: &[u16; MAX_BASINS],
    next: &[u16; HALF_EDGES],
    seen: &mut [u16; MAX_BASINS],
    queue: &mut [u16; MAX_BASINS],
) -> Turn
    requires g_value { g ≡ gates_held (net_of l.basins kinds.now a.now b.now) }
    requires kept { Kept l.basins kinds.now tried.old a.now b.now l.due (take g setting.old) under.old ways.old head.now
        next.now standing }
    requires setting_len { length setting.old ≡ max_reaches }
    requires guiding { Guiding kinds.now a.now b.now guide.now }
    ensures turned { Turned (net_of l.basins kinds.now a.now b.now) (holding l setting.old)
        (holding result.line setting.new) }
    ensures kept_2 { Kept l.basins kinds.now tried.new a.now b.now result.line.due (take g setting.new)
        under.new ways.new head.now next.now standing }
{
    match l.due {
        Due::Plan(left) => if l.at < plan_length(g) {
            Turn { line: l, known }
        } else {
            line_after(
                l, setting, left, g, standing, known, guide, kinds, a, b, tried, under, ways, head,
                next, seen, queue,
            )
        },
        Due::More => Turn { line: l, known },
        Due::End => Turn { line: l, known },
        Due::Refused(_) => Turn { line: l, known },
    }
}

// Fills a buffer line by line, in working memory that stands at the plan in hand, if it does. What it leaves there is free.
fn print_lines(
    l: Line,
    setting: &mut [u8],
    g: usize,
    standing: bool,
    guide: &[u16],
    kinds: &[u8],
    a: &[u16],
    b: &[u16],
    out: &mut [u8],
    tried: &mut [u8],
    under: &mut [u8],
    ways: &mut [u8],
    head: &[u16; MAX_BASINS],
    next: &[u16; HALF_EDGES],
    seen: &mut [u16; MAX_BASINS],
    queue: &mut [u16; MAX_BASINS],
) -> Laid
    requires g_value { g ≡ gates_held (net_of l.basins kinds.now a.now b.now) }
    requires kept { Kept l.basins kinds.now tried.old a.now b.now l.due (take g setting.old) under.old ways.old head.now
        next.now standing }
    requires setting_len { length setting.old ≡ max_reaches }
    requires guiding { Guiding kinds.now a.now b.now guide.now }
    ensures { Filling (holding l setting.old) kinds.now a.now b.now out.old out.new
        (record { lister = holding result.line setting.new; count = result.count }) }
{
    let mut line = l;
    let mut known = kinds.len();
    let mut n = 0;
    // each turn moves on by what a line could put: no index loop
    while n < out.len() {
        let turn = turned(
            line, setting, g, standing, known, guide, kinds, a, b, tried, under, ways, head, next,
            seen, queue,
        );
        line = turn.line;
        known = turn.known;
        let k = put_line(line, setting, g, &mut out[n..]);
        if k == 0 {
            return Laid { line, count: n };
        }
        line.at += k;
        n += k;
    }
    Laid { line, count: n }
}

// The same with lent working memory, which is prepared if the plan in hand is one: the ways, the index and the channels. What it leaves there is free.
fn fill_in(
    l: Line,
    setting: &mut [u8],
    kinds: &[u8],
    a: &[u16],
    b: &[u16],
    out: &mut [u8],
    guide: &mut [u16],
    tried: &mut [u8],
    under: &mut [u8],
    ways: &mut [u8],
    head: &mut [u16; MAX_BASINS],
    next: &mut [u16; HALF_EDGES],
    seen: &mut [u16; MAX_BASINS],
    queue: &mut [u16; MAX_BASINS],
) -> Laid
    requires space { Space ways.old head.old next.old }
    requires setting_len { length setting.old ≡ max_reaches }
    requires guide_len { length guide.old ≡ max_reaches }
    requires tried_len { length tried.old ≡ max_reaches }
    requires under_len { length under.old ≡ max_reaches }
    ensures { Filling (holding l setting.old) kinds.now a.now b.now out.old out.new
        (record { lister = holding result.line setting.new; count = result.count }) }
{
    let g = gates_held(kinds, a, b);
    let m = least(kinds.len(), MAX_REACHES);
    let basins = l.basins;
    let oriented = &mut ways[..m];
    let standing = prime(basins, kinds, a, b, &setting[..g], oriented, head, next);
    let all = &mut tried[..m];
    all.copy_from_slice(&kinds[..m]);
    let k = find_if(standing, basins, kinds, a, b, head, next, guide);
    print_lines(
        l,
        setting,
        g,
        standing,
        &guide[..k],
        kinds,
        a,
        b,
        out,
        all,
        &mut under[..m],
        oriented,
        head,
        next,
        seen,
        queue,
    )
}

// The same, with working memory of its own.
fn fill_lines(
    l: Line,
    setting: &mut [u8],
    kinds: &[u8],
    a: &[u16],
    b: &[u16],
    out: &mut [u8],
) -> Laid
    requires { length setting.old ≡ max_reaches }
    ensures { Filling (holding l setting.old) kinds.now a.now b.now out.old out.new
        (record { lister = holding result.line setting.new; count = result.count }) }
{
    let mut guide = [0u16; MAX_REACHES];
    let mut tried = [0u8; MAX_REACHES];
    let mut under = [0u8; MAX_REACHES];
    let mut ways = [0u8; MAX_REACHES];
    let mut head = [0u16; MAX_BASINS];
    let mut next = [0u16; HALF_EDGES];
    let mut seen = [0u16; MAX_BASINS];
    let mut queue = [0u16; MAX_BASINS];
    fill_in(
        l, setting, kinds, a, b, out, &mut guide, &mut tried, &mut under, &mut ways, &mut head,
        &mut next, &mut seen, &mut queue,
    )
}

// Puts the first bytes of what is still to be printed into the buffer, as many as it holds. The rows are the network's.
pub fn fill(l: Lister, kinds: &[u8], a: &[u16], b: &[u16], out: &mut [u8]) -> Filled
    ensures { Filling l kinds.now a.now b.now out.old out.new result }
{
    let line = Line {
        basins: l.basins,
        due: l.due,
        at: l.at,
    };
    let mut setting = l.setting;
    let laid = fill_lines(line, &mut setting, kinds, a, b, out);
    let lister = Lister {
        basins: laid.line.basins,
        due: laid.line.due,
        at: laid.line.at,
        setting,
    };
    Filled {
        lister,
        count: laid.count,
    }
}
