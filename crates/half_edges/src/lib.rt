// The half-edges of a reach table: reach i gives half-edge 2 i at its end A, and 2 i + 1 at its end B.
// An index links the half-edges of each basin, so that a search takes time in proportion to basins plus reaches.
// The functions with a `requires` are for the crates above, which have checked it.

#![tactic(auto)]

ghost use Rattle.std.specs.Prelude.{◌≡◌, ◌++◌, ◌≤◌, ◌<◌, length, get_or, set, replicate, drop};
ghost use Rattle.half_edges.specs.Chains.{Index, Indexable, Table};
ghost use Rattle.half_edges.specs.Graphs.{Index-prop, Table-prop};

use network::MAX_REACHES;

// The half-edges of the largest table.
pub const HALF_EDGES: usize = 2 * MAX_REACHES;

// What stands where there is no half-edge: a 16-bit number and no Option, since the index is lent rows, and their memory is fixed and small.
pub const NO_HALF: u16 = 65535;

// The graph of a table: how many basins it has, the ends of its reaches, and the index of its half-edges. What kinds the reaches are and which way each passes
// stands beside it.
#[derive(Clone, Copy)]
pub struct Graph<'a> {
    pub basins: usize,
    pub a: &'a [u16],
    pub b: &'a [u16],
    // The last half-edge at each basin, and the one before each at the same basin.
    pub head: &'a [u16],
    pub next: &'a [u16],
    ghost table: { Table basins a.now b.now } by { Table-prop basins a.now b.now },
    ghost index: { Index basins a.now b.now head.now next.now } by { Index-prop basins a.now b.now head.now next.now },
}

// Fills row[0..n] with x.
pub fn fill_row(n: usize, x: u16, row: &mut [u16])
    requires { n ≤ length row.old }
    ensures { row.new ≡ replicate n x ++ drop n row.old }
{
    row[..n].fill(x);
}

// Puts half-edge h before the others at basin v.
fn link(head: &mut [u16], next: &mut [u16], v: u16, h: u16)
    requires v_in_bounds { v < length head.old }
    requires h_in_bounds { h < length next.old }
    ensures head_after { head.new ≡ set head.old v h }
    ensures next_after { next.new ≡ set next.old h (get_or head.old v 0) }
{
    next[h as usize] = head[v as usize];
    head[v as usize] = h;
}

// Makes the index of a table's half-edges: head[v] is the last half-edge at basin v, next[h] the one before h at the same basin.
pub fn index(n: usize, a: &[u16], b: &[u16], head: &mut [u16], next: &mut [u16])
    requires { Indexable n a.now b.now head.old next.old }
    ensures { Index n a.now b.now head.new next.new }
{
    fill_row(n, NO_HALF, head);
    for (i, &x) in a.iter().enumerate() {
        link(head, next, x, (2 * i) as u16);
        link(head, next, b[i], (2 * i + 1) as u16);
    }
}
