// The calls that read and write network files and sheets, and the listing.
use crate::bounds::{OLD, OLD_WORD, front, front_words, sum, within, within_words};
use crate::plans::number;
use crate::show;
use crate::show::Out;
use crate::table_rows::ROOM;
use listing_state::Lister;
use network::{Counts, MAX_REACHES, Refusal};
use std::io;
use std::io::Write;

// The lengths of the rows that are lent.
#[derive(Clone, Copy)]
pub struct Lengths {
    pub kinds: usize,
    pub a: usize,
    pub b: usize,
}

// A reader's answer, and the rows afterwards.
#[derive(Drop)]
pub struct Reading {
    pub answer: Result<Counts, Refusal>,
    pub kinds: [u8; ROOM],
    pub a: [u16; ROOM],
    pub b: [u16; ROOM],
}

pub fn read(file: &[u8], n: Lengths) -> Reading {
    let mut kinds = [OLD; ROOM];
    let mut a = [OLD_WORD; ROOM];
    let mut b = [OLD_WORD; ROOM];
    let k = within(&kinds, n.kinds);
    let x = within_words(&a, n.a);
    let y = within_words(&b, n.b);
    let answer = netfile_rows::read_network(file, &mut kinds[..k], &mut a[..x], &mut b[..y]);
    Reading {
        answer,
        kinds,
        a,
        b,
    }
}

fn show_read(w: &mut impl Write, o: Out, answer: Result<Counts, Refusal>) -> io::Result<Out> {
    match answer {
        Err(r) => show::reply(w, o, number(r)),
        Ok(Counts { basins, reaches }) => {
            let o = show::reply_with(w, o, 0, basins as u64)?;
            show::value(w, o, reaches as u64)
        }
    }
}

// A row of ends, with two entries beyond the first n.
fn show_ends(w: &mut impl Write, o: Out, row: &[u16; ROOM], n: usize) -> io::Result<Out> {
    show::words(w, o, front_words(row, sum(n, 2)))
}

// Prints a reader's answer and the rows, with two entries beyond each.
pub fn show_rows(w: &mut impl Write, o: Out, r: Reading, n: Lengths) -> io::Result<Out> {
    let answer = r.answer;
    let kinds = r.kinds;
    let a = r.a;
    let b = r.b;
    let o = show_read(w, o, answer)?;
    let o = show::bytes(w, o, front(&kinds, sum(n.kinds, 2)))?;
    let o = show_ends(w, o, &a, n.a)?;
    show_ends(w, o, &b, n.b)
}

// What a writer or the sheet reader answers: 0 and the length, or the number of the refusal.
#[derive(Drop)]
struct Size {
    number: u8,
    length: usize,
}

fn size_of(answer: Result<usize, Refusal>) -> Size {
    match answer {
        Err(r) => Size {
            number: number(r),
            length: 0,
        },
        Ok(length) => Size { number: 0, length },
    }
}

// The bytes that a buffer has room for: more than the longest network file.
const FILE: usize = 6 * MAX_REACHES + 56;

// An answer, and the buffer afterwards.
#[derive(Drop)]
pub struct Left {
    size: Size,
    bytes: [u8; FILE],
}

// The calls, by the bytes of the case file; the reply writer has all others.
const WRITE_NETWORK: u8 = 8;

const READ_SHEET: u8 = 9;

const WRITE_SHEET: u8 = 10;

fn fill(
    call: u8,
    basins: u16,
    kinds: &[u8],
    a: &[u16],
    b: &[u16],
    s: &[u8],
    out: &mut [u8],
) -> Size {
    match call {
        WRITE_NETWORK => size_of(netfile_rows::write_network(basins, kinds, a, b, out)),
        READ_SHEET => size_of(sheet_rows::read_sheet(basins, kinds, a, b, s, out)),
        WRITE_SHEET => size_of(sheet_rows::write_sheet(basins, kinds, a, b, s, out)),
        _ => size_of(sheet_rows::write_reply(basins, kinds, a, b, out)),
    }
}

pub fn filled(
    call: u8,
    basins: u16,
    kinds: &[u8],
    a: &[u16],
    b: &[u16],
    s: &[u8],
    room: usize,
) -> Left {
    let mut bytes = [OLD; FILE];
    let n = within(&bytes, room);
    let size = fill(call, basins, kinds, a, b, s, &mut bytes[..n]);
    Left { size, bytes }
}

// Prints an answer and the buffer, with two bytes beyond it.
pub fn show_left(w: &mut impl Write, o: Out, x: Left, room: usize) -> io::Result<Out> {
    let size = x.size;
    let bytes = x.bytes;
    let o = show::reply_with(w, o, size.number, size.length as u64)?;
    show::bytes(w, o, front(&bytes, sum(room, 2)))
}

// A part of a listing, and the state after it.
#[derive(Clone, Copy)]
struct Part {
    lister: Lister,
    count: usize,
    bytes: [u8; 11100],
}

fn take_part(lister: Lister, kinds: &[u8], a: &[u16], b: &[u16], room: usize) -> Part {
    let mut bytes = [OLD; 11100];
    let n = within(&bytes, room);
    let filled = listing::fill(lister, kinds, a, b, &mut bytes[..n]);
    let lister = filled.lister;
    let count = filled.count;
    Part {
        lister,
        count,
        bytes,
    }
}

// Prints a part as the text it is, or its first 2,000 bytes, and the buffer.
fn show_part(w: &mut impl Write, o: Out, p: Part, room: usize) -> io::Result<Out> {
    let bytes = p.bytes;
    let o = show::reply_with(w, o, 0, p.count as u64)?;
    if o.mode != show::QUIET {
        w.write_all(b"\n")?;
        w.write_all(front(front(&bytes, p.count), 2000))?;
    }
    show::bytes(w, o, front(&bytes, sum(room, 2)))
}

// So many parts of a listing and one more.
fn parts(
    w: &mut impl Write,
    o: Out,
    lister: Lister,
    kinds: &[u8],
    a: &[u16],
    b: &[u16],
    room: usize,
    n: usize,
) -> io::Result<Out> {
    let mut p = take_part(lister, kinds, a, b, room);
    let mut o = show_part(w, o, p, room)?;
    for _ in 0..n {
        let lister = p.lister;
        p = take_part(lister, kinds, a, b, room);
        o = show_part(w, o, p, room)?;
    }
    Ok(o)
}

// Lists a file, in parts that fill the room.
pub fn list(w: &mut impl Write, o: Out, file: &[u8], room: usize, n: usize) -> io::Result<Out> {
    let mut kinds = [0u8; ROOM];
    let mut a = [0u16; ROOM];
    let mut b = [0u16; ROOM];
    let started = listing_state::start(file, &mut kinds, &mut a, &mut b);
    let m = started.reaches;
    let lister = started.lister;
    parts(
        w,
        o,
        lister,
        front(&kinds, m),
        front_words(&a, m),
        front_words(&b, m),
        room,
        n,
    )
}
