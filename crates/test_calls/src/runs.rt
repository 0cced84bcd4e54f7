// Rows of bytes that the file has as runs: tables and cases.
use crate::bounds::{byte_at, rest, sum, word_at};
use listing_state::MAX_BYTES;

// The bytes that a row has room for: those of a file that is longer than the lister reads.
pub const SIZE: usize = MAX_BYTES + 200;

// A row; how many bytes it has so far, and where in the file it goes on.
#[derive(Clone, Copy)]
pub struct Row {
    pub bytes: [u8; SIZE],
    pub length: usize,
    pub next: usize,
}

// The number after the plain bytes is a period, or this and how far before the run the others are copied from.
const BACK: usize = 1024;

// Byte i of the run at a place: a plain one, or one of those after them, that are copied from before the run, or go by a period and steps.
fn run_byte(file: &[u8], at: usize, i: usize) -> u8 {
    let s = rest(file, at);
    let plain = byte_at(s, 0) as usize;
    if i < plain {
        return byte_at(s, sum(i, 3));
    }
    let j = i - plain;
    let source = word_at(s, plain + 3) as usize;
    let place = sum(sum(at, BACK), j);
    if source == 0 {
        return 0;
    }
    if place < source {
        return 0;
    }
    if source >= BACK {
        return byte_at(file, place - source);
    }
    let first = sum(plain + 5, j % source);
    let step = byte_at(s, sum(first, source)) as usize;
    ((byte_at(s, first) as usize + j / source % 256 * step % 256) % 256) as u8
}

// How many bytes the run has in the file.
fn run_size(s: &[u8]) -> usize {
    let plain = byte_at(s, 0) as usize;
    let source = word_at(s, plain + 3) as usize;
    if word_at(s, 1) == 0 {
        return plain + 3;
    }
    if source >= BACK {
        return plain + 5;
    }
    plain + 5 + 2 * source
}

// The row with the bytes of its next run.
fn with_run(x: Row, file: &[u8]) -> Row {
    let mut x = x;
    let s = rest(file, x.next);
    let n = byte_at(s, 0) as usize + word_at(s, 1) as usize;
    for i in 0..n {
        let k = sum(x.length, i);
        if k < SIZE {
            x.bytes[k] = run_byte(file, x.next, i);
        }
    }
    x.length = sum(x.length, n);
    x.next = sum(x.next, run_size(s));
    x
}

// The row at a place.
pub fn row_at(file: &[u8], at: usize) -> Row {
    let mut x = Row {
        bytes: [0; SIZE],
        length: 0,
        next: sum(at, 2),
    };
    for _ in 0..word_at(file, at) {
        x = with_run(x, file);
    }
    x
}
