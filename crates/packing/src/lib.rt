// The lent reach table, a slice of records, taken apart into rows of numbers.
// Two functions have the slice in hand: `pack_into` and `unpack_from`. They go over the table once, in place, and leave one record to `reach_numbers`.
// `Packed` holds the rows of one call over records: they are new, a table is packed into them, and the call over rows is lent what `rows` hands out.

#![tactic(auto)]

ghost use Rattle.std.specs.Prelude.{◌≡◌, ◌≤◌};
ghost use Rattle.packing.specs.Rows.{PackedInto, UnpackedFrom, max_rows};

use network::Reach;
use reach_numbers::{filling, fitting, numbers_of, reach_of};
use tables::Rows;

// The length of a call's own rows.
pub const MAX_ROWS: usize = reach_numbers::MAX_ROWS;

// The lent table goes into the first numbers of lent rows, as many reaches as there is room for; says how many. The rows keep all other numbers.
pub fn pack_into(t: &[Reach], kinds: &mut [u8], a: &mut [u16], b: &mut [u16]) -> usize
    ensures { PackedInto t.now kinds.old a.old b.old result kinds.new a.new b.new }
{
    let n = fitting(t.len(), kinds.len(), a.len(), b.len());
    for i in 0..n {
        let x = numbers_of(t[i]);
        kinds[i] = x.kind;
        a[i] = x.a;
        b[i] = x.b;
    }
    n
}

// The first n reaches of lent rows go into the first records of the lent table, as many as there are and as there is room for. The table keeps all other records.
pub fn unpack_from(n: usize, kinds: &[u8], a: &[u16], b: &[u16], t: &mut [Reach])
    ensures { UnpackedFrom n kinds.now a.now b.now t.old t.new }
{
    let end = filling(n, kinds.len(), a.len(), b.len(), t.len());
    for i in 0..end {
        t[i] = reach_of(kinds[i], a[i], b[i]);
    }
}

// A table of records packed into rows of its own: its front, which is all of a table that is not over-full.
#[derive(Drop)]
pub struct Packed {
    kinds: [u8; MAX_ROWS],
    a: [u16; MAX_ROWS],
    b: [u16; MAX_ROWS],
    count: usize,
    ghost within: { count ≤ max_rows },
}

impl Packed {
    ghost use Rattle.packing.specs.Packs.{Packs, Lends};

    // Rows of which none is filled.
    pub fn new() -> Packed
        ensures { result.count ≡ 0 }
    {
        Packed {
            kinds: [0; MAX_ROWS],
            a: [0; MAX_ROWS],
            b: [0; MAX_ROWS],
            count: 0,
        }
    }

    // Packs a table into these rows, in their place: a call holds them once and copies none.
    pub fn pack(&mut self, table: &[Reach])
        ensures { Packs table.now self.new }
    {
        let Packed { kinds, a, b, count } = self;
        *count = pack_into(table, kinds, a, b);
    }

    // Packs a table into new rows, which are handed on by value.
    pub fn of(table: &[Reach]) -> Packed
        ensures { Packs table.now result }
    {
        let mut packed = Packed::new();
        packed.pack(table);
        packed
    }

    // The rows that were filled.
    pub fn rows(&self) -> Rows<'_>
        ensures { Lends self.now result }
    {
        let n = self.count;
        Rows {
            kinds: &self.kinds[..n],
            a: &self.a[..n],
            b: &self.b[..n],
        }
    }
}
