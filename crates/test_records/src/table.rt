// A table of reaches by a fixed sequence of numbers.
ghost use Rattle.std.specs.Prelude.{◌≤◌, length};
ghost use Rattle.test_records.specs.Rooms.{table_room};

use crate::relays::ROOM;
use network::{Kind, MAX_REACHES, Reach, State};

// The same reaches as rows and as records, and a row of bytes for settings.
#[derive(Clone, Copy)]
pub struct Twice {
    pub kinds: [u8; ROOM],
    pub a: [u16; ROOM],
    pub b: [u16; ROOM],
    pub reaches: [Reach; ROOM],
    pub bits: [u8; MAX_REACHES],
}

fn reach_of(kind: u8, a: u16, b: u16) -> Reach {
    let state = match kind {
        0 => State::InService(Kind::Gated),
        1 => State::InService(Kind::Flap),
        2 => State::InService(Kind::TwoWay),
        3 => State::Shut(Kind::Gated),
        4 => State::Shut(Kind::Flap),
        _ => State::Shut(Kind::TwoWay),
    };
    Reach { state, a, b }
}

fn empty() -> Twice {
    let r = reach_of(0, 0, 0);
    let reaches = [r; ROOM];
    Twice {
        kinds: [0; ROOM],
        a: [0; ROOM],
        b: [0; ROOM],
        reaches,
        bits: [0; MAX_REACHES],
    }
}

// Reach i by a number: a third of all are gated, a third are shut, of each kind and by numbers from 250 on; the ends are below a bound.
fn with_reach(mut t: Twice, i: usize, x: u64, ends: u64) -> Twice {
    if ends == 0 {
        return t;
    }
    if i < ROOM {
        let kind = ((x % 4 % 3 + x / 1024 % 4 / 3 * 3 + x / 4096 % 8 / 7 * 250) % 256) as u8;
        let a = (x / 8 % ends % 65536) as u16;
        let b = (x / 64 % ends % 65536) as u16;
        let r = reach_of(kind, a, b);
        t.kinds[i] = kind;
        t.a[i] = a;
        t.b[i] = b;
        t.reaches[i] = r;
    }
    if i < MAX_REACHES {
        t.bits[i] = (x / 16 % 2) as u8;
    }
    t
}

pub fn next(x: u64) -> u64 {
    (x % 65537 * 75 + 74) % 65537
}

// The table of so many reaches with such ends, by the numbers after a seed.
pub fn table(seed: u64, n: usize, ends: u64) -> Twice {
    let mut t = empty();
    let mut x = seed;
    for i in (0..n).rev() {
        x = next(x);
        t = with_reach(t, i, x, ends);
    }
    t
}

// A number of reaches that there is room for.
pub fn bounded(n: usize) -> usize
    ensures { result ≤ table_room }
{
    if n < ROOM { n } else { ROOM }
}

// n, or the length of the row where that is less: a count of entries at its start.
pub fn within(s: &[u8], n: usize) -> usize
    ensures { result ≤ length s.now }
{
    if n <= s.len() { n } else { s.len() }
}

pub fn within_words(s: &[u16], n: usize) -> usize
    ensures { result ≤ length s.now }
{
    if n <= s.len() { n } else { s.len() }
}

// The first n entries, or all where there are fewer.
pub fn front(s: &[u8], n: usize) -> &[u8] {
    let k = within(s, n);
    &s[..k]
}

pub fn front_words(s: &[u16], n: usize) -> &[u16] {
    let k = within_words(s, n);
    &s[..k]
}
