// The ends of a table: its bytes are the number of reaches, a kind for each, then both ends of each, the low bytes of all before the high ones.
use crate::bounds::{byte_at, rest, word_at};
use network::MAX_REACHES;

// The reaches that a row has room for: more than a network may have.
pub const ROOM: usize = MAX_REACHES + 6;

#[derive(Drop)]
pub struct Ends {
    pub a: [u16; ROOM],
    pub b: [u16; ROOM],
}

// The end of number i.
fn end_at(low: &[u8], high: &[u8], i: usize) -> u16 {
    byte_at(low, i) as u16 + 256 * (byte_at(high, i) as u16)
}

pub fn load(s: &[u8]) -> Ends {
    let mut t = Ends {
        a: [0; ROOM],
        b: [0; ROOM],
    };
    let n = word_at(s, 0) as usize;
    let low = rest(s, n + 2);
    let high = rest(low, 2 * n);
    for i in 0..n.min(ROOM) {
        t.a[i] = end_at(low, high, 2 * i);
        t.b[i] = end_at(low, high, 2 * i + 1);
    }
    t
}
