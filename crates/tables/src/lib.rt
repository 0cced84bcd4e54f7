// The reach table as rows of numbers: kinds (0 gated, 1 flap, 2 two-way; 3, 4, 5 the same shut for works, and any other number shut too), ends A and ends B.
// What a table gets as an answer, which way each of its reaches passes under a setting, and the setting that its ways make.
// The functions with a `requires` are for the crates above, which have checked it.

#![tactic(auto)]

ghost use Rattle.std.specs.Prelude.{◌≡◌, ◌&&◌, ◌++◌, ◌≤◌, min, length, drop, leb, eqb};
ghost use Rattle.lists.specs.Lists.{every};
ghost use Rattle.network.specs.Tables.{state_of, table_of};
ghost use Rattle.network.specs.Orientations.{way};
ghost use Rattle.tables.specs.Rows.{net_of, gates_in, gates_held, ways_row, bytes_row};
ghost use Rattle.tables.specs.Answers.{TableChecked, StrayEnd};

use network::{MAX_BASINS, MAX_REACHES, Refusal};

// The kinds of reaches in service. Every greater number is a shut reach.
pub const KIND_GATED: u8 = 0;

pub const KIND_FLAP: u8 = 1;

pub const KIND_TWO_WAY: u8 = 2;

// The ways of a reach that passes both ways, and of one that passes neither.
const EITHER: u8 = 2;

const NEITHER: u8 = 3;

// A table lent as rows of numbers.
#[derive(Clone, Copy)]
pub struct Rows<'a> {
    pub kinds: &'a [u8],
    pub a: &'a [u16],
    pub b: &'a [u16],
}

// The smaller of two counts.
pub fn least(x: usize, y: usize) -> usize
    ensures { result ≡ min x y }
{
    if x < y { x } else { y }
}

// The number of reaches: the table is as long as the shortest of its rows.
pub fn row_count(kinds: &[u8], a: &[u16], b: &[u16]) -> usize
    ensures { result ≡ length (table_of kinds.now a.now b.now) }
{
    least(kinds.len(), least(a.len(), b.len()))
}

// The number of reaches if every end is below the basin count, else a number below it: which reach it then names is not promised, since `table_check` asks
// only whether there is a stray end.
fn stray_end(basins: u16, kinds: &[u8], a: &[u16], b: &[u16]) -> usize
    ensures { StrayEnd (net_of basins kinds.now a.now b.now) result }
{
    let n = row_count(kinds, a, b);
    for i in 0..n {
        if a[i] >= basins || b[i] >= basins {
            return i;
        }
    }
    n
}

// What the table gets, in the order of document 01: the basin count, the number of reaches, the ends. Refuses: 1, 2, 3.
pub fn table_check(basins: u16, kinds: &[u8], a: &[u16], b: &[u16]) -> Result<(), Refusal>
    ensures { TableChecked (net_of basins kinds.now a.now b.now) result }
{
    if basins == 0 || basins as usize > MAX_BASINS {
        return Err(Refusal::BasinCount);
    }
    let n = row_count(kinds, a, b);
    let i = stray_end(basins, kinds, a, b);
    if n > MAX_REACHES {
        return Err(Refusal::TooManyReaches);
    }
    if i < n {
        return Err(Refusal::EndOutOfRange);
    }
    Ok(())
}

// The number of gated reaches.
pub fn count_gates(kinds: &[u8]) -> usize
    ensures { result ≡ gates_in kinds.now }
{
    let mut n = 0;
    for &kind in kinds {
        if kind == KIND_GATED {
            n += 1;
        }
    }
    n
}

// Whether every byte is 0 or 1.
fn bits(setting: &[u8]) -> bool
    ensures { result ≡ every (λ x. leb x 1) setting.now }
{
    setting.iter().all(|&byte| byte <= 1)
}

// Whether the bytes are a setting of the reaches of these kinds: one byte for each gated reach, and each 0 or 1.
pub fn fits(kinds: &[u8], setting: &[u8]) -> bool
    ensures { result ≡ eqb (length setting.now) (gates_in kinds.now) && every (λ x. leb x 1) setting.now }
{
    setting.len() == count_gates(kinds) && bits(setting)
}

// The way of a reach of the kind, if the gates from it on are hung as the bytes from k on say. A gate without a byte passes both ways, a shut reach neither.
fn way_of(kind: u8, setting: &[u8], k: usize) -> u8
    ensures { result ≡ way (state_of kind) (drop k setting.now) }
{
    if kind == KIND_GATED && k < setting.len() {
        setting[k]
    } else if kind == KIND_FLAP {
        0
    } else if kind > KIND_TWO_WAY {
        NEITHER
    } else {
        EITHER
    }
}

// The ways of all reaches under a setting, or under the first bytes of one.
pub fn orient(kinds: &[u8], setting: &[u8], ways: &mut [u8])
    requires { length ways.old ≡ length kinds.now }
    ensures { ways.new ≡ ways_row kinds.now setting.now }
{
    let mut k = 0;
    for (i, &kind) in kinds.iter().enumerate() {
        ways[i] = way_of(kind, setting, k);
        if kind == KIND_GATED {
            k += 1;
        }
    }
}

// Puts the bytes of the gated reaches, in reach order, to the front of the plan.
pub fn gather(kinds: &[u8], ways: &[u8], plan: &mut [u8])
    requires ways_len { length ways.now ≡ length kinds.now }
    requires kinds_in_bounds { gates_in kinds.now ≤ length plan.old }
    ensures { plan.new ≡ bytes_row kinds.now ways.now ++ drop (gates_in kinds.now) plan.old }
{
    let mut k = 0;
    for (i, &kind) in kinds.iter().enumerate() {
        if kind == KIND_GATED {
            plan[k] = ways[i];
            k += 1;
        }
    }
}

// The number of gated reaches of a table, or the reach limit if there are more.
pub fn gates_held(kinds: &[u8], a: &[u16], b: &[u16]) -> usize
    ensures { result ≡ gates_held (net_of 0 kinds.now a.now b.now) }
{
    let m = row_count(kinds, a, b);
    let g = count_gates(&kinds[..m]);
    least(g, MAX_REACHES)
}
