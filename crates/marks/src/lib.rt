// Marks: a set of basins written as 32 bytes, and the count of marked basins.
// Basin b is bit b mod 8, lowest bit first, of byte b div 8; unused bits are 0.
// The functions with a `requires` are for the crates above, which have checked it.

#![tactic(auto)]

ghost use Rattle.std.specs.Prelude.{◌≡◌, ◌++◌, ◌+◌, ◌≤◌, ◌<◌, length, take, drop};
ghost use Rattle.lists.specs.Lists.{elem};
ghost use Rattle.network.specs.Marks.{mark_bytes, bit, mark_byte, marks_of, mark_count};
ghost use Rattle.lists.specs.Words.{word_of};
ghost use Rattle.marks.specs.Sets.{marked_set};

use distances::UNREACHED;

// The bytes of marks.
pub const MARK_BYTES: usize = 32;

// The bit of basin b: 1 where it is below n and noted as reached, and 0 elsewhere.
fn mark_bit(n: usize, seen: &[u16], b: usize) -> u8
    requires { n ≤ length seen.now }
    ensures { result ≡ bit (elem b (marked_set n seen.now)) }
{
    if b >= n {
        return 0;
    }
    if seen[b] < UNREACHED { 1 } else { 0 }
}

// Byte k of the marks, which takes the bits of its eight basins from the highest to the lowest.
fn mark_byte(n: usize, seen: &[u16], k: usize) -> u8
    requires n_in_bounds { n ≤ length seen.now }
    requires k_lt_mark_bytes { k < mark_bytes }
    ensures { result ≡ mark_byte (marked_set n seen.now) k }
{
    let mut byte = 0;
    for b in (8 * k..8 * k + 8).rev() {
        byte = 2 * byte + mark_bit(n, seen, b);
    }
    byte
}

// Writes the marks of the basins below n that are noted as reached.
pub fn put_marks(n: usize, seen: &[u16], marks: &mut [u8])
    requires n_in_bounds { n ≤ length seen.now }
    requires mark_bytes_in_bounds { mark_bytes ≤ length marks.old }
    ensures { marks.new ≡ marks_of (marked_set n seen.now) ++ drop mark_bytes marks.old }
{
    for (k, byte) in marks[..MARK_BYTES].iter_mut().enumerate() {
        *byte = mark_byte(n, seen, k);
    }
}

// The eight bytes of marks from `at` on as one word, the lowest byte first.
fn word_at(marks: &[u8], at: usize) -> u64
    requires { at + 8 ≤ length marks.now }
    ensures { result ≡ word_of (take 8 (drop at marks.now)) }
{
    u64::from_le_bytes([
        marks[at],
        marks[at + 1],
        marks[at + 2],
        marks[at + 3],
        marks[at + 4],
        marks[at + 5],
        marks[at + 6],
        marks[at + 7],
    ])
}

// The count of marked basins: the ones in the bytes of marks, taken as 64-bit words.
pub fn count_marks(marks: &[u8]) -> u16
    requires { mark_bytes ≤ length marks.now }
    ensures { result ≡ mark_count (take mark_bytes marks.now) }
{
    let mut total = 0;
    for at in (0..MARK_BYTES).step_by(8) {
        total += word_at(marks, at).count_ones() as u16;
    }
    total
}
