// The components of a network by union-find: each basin has a parent in its component, no higher than itself, and the lowest member is its own.
// The functions with a `requires` are for the crates above, which have checked it.

#![tactic(auto)]

ghost use Rattle.std.specs.Prelude.{◌≡◌, ◌≤◌, ◌<◌, length};
ghost use Rattle.network.specs.Networks.{max_basins};
ghost use Rattle.network.specs.Tables.{state_of};
ghost use Rattle.tables.specs.Rows.{net_of};
ghost use Rattle.components.specs.Components.{is_two_way};
ghost use Rattle.components.specs.Labels.{Joinable, Labelled};
ghost use Rattle.union_find.specs.Forests.{Separate, Rising, RootFound, Joined, Forest, Numbered};

use components::Note;
use tables::KIND_TWO_WAY;

// Each basin stands alone: it is its own parent.
fn separate(n: usize, parents: &mut [u16])
    requires n_le_max_basins { n ≤ max_basins }
    requires n_in_bounds { n ≤ length parents.old }
    ensures { Separate n parents.new }
{
    for v in 0..n {
        parents[v] = v as u16;
    }
}

// The root above basin v. On the way every other basin gets its parent's parent (path halving), which keeps the ways short and changes no root.
fn find(n: usize, parents: &mut [u16], v: u16) -> u16
    requires rising { Rising n parents.old }
    requires v_lt_n { v < n }
    ensures { RootFound n parents.old v result parents.new }
{
    let mut x = v;
    while parents[x as usize] < x {
        let up = parents[x as usize];
        let above = parents[up as usize];
        parents[x as usize] = above;
        x = above;
    }
    x
}

// Joins the components of two basins: the lower of the two roots becomes the parent of the other.
fn join(n: usize, parents: &mut [u16], a: u16, b: u16)
    requires rising { Rising n parents.old }
    requires a_lt_n { a < n }
    requires b_lt_n { b < n }
    ensures { Joined n parents.old a b parents.new }
{
    let x = find(n, parents, a);
    let y = find(n, parents, b);
    if x < y {
        parents[y as usize] = x;
    } else {
        parents[x as usize] = y;
    }
}

// Whether a reach of the kind joins its ends: a two-way reach in service does.
fn joins(kind: u8) -> bool
    ensures { result ≡ is_two_way (state_of kind) }
{
    kind == KIND_TWO_WAY
}

// Joins the ends of every two-way reach in service.
fn join_all(n: usize, kinds: &[u8], a: &[u16], b: &[u16], parents: &mut [u16])
    requires joinable { Joinable n kinds.now a.now b.now }
    requires separate { Separate n parents.old }
    ensures { Forest (net_of n kinds.now a.now b.now) parents.new }
{
    for (i, &kind) in kinds.iter().enumerate() {
        if joins(kind) {
            join(n, parents, a[i], b[i]);
        }
    }
}

// Numbers the components in the order of their lowest members: a basin's number takes the place of its parent; a parent other than itself is lower and has its own
// number already. Notes of each component whether it has one member or several, and returns how many components there are.
fn number(n: usize, parents: &mut [u16], notes: &mut [Note]) -> u16
    requires n_le_max_basins { n ≤ max_basins }
    requires rising { Rising n parents.old }
    requires n_in_bounds { n ≤ length notes.old }
    ensures { Numbered n parents.old result parents.new notes.new }
{
    let mut count: u16 = 0;
    for v in 0..n {
        let up = parents[v] as usize;
        if up < v {
            let c = parents[up];
            parents[v] = c;
            notes[c as usize] = Note::Several;
            continue;
        }
        parents[v] = count;
        notes[count as usize] = Note::One;
        count += 1;
    }
    count
}

// The number of each basin's component and what is noted of each component, in lent working memory; returns how many components there are.
pub fn components(
    n: usize,
    kinds: &[u8],
    a: &[u16],
    b: &[u16],
    labels: &mut [u16],
    notes: &mut [Note],
) -> u16
    requires joinable { Joinable n kinds.now a.now b.now }
    requires n_in_bounds { n ≤ length labels.old }
    requires n_in_bounds_2 { n ≤ length notes.old }
    ensures { Labelled (net_of n kinds.now a.now b.now) result labels.new notes.new }
{
    separate(n, labels);
    join_all(n, kinds, a, b, labels);
    number(n, labels, notes)
}
