// The public calls over rows, replayed from a file of cases. Of each call is printed what it replies, the part that it hands back, and what it leaves in
// every lent buffer and in two entries beyond. What is to be printed comes from make.py, which knows nothing of this code.

#![tactic(auto)]

ghost use Rattle.std.specs.Prelude.{◌≤◌, length, IfOk};

mod bounds;
mod comparisons;
mod contractions;
mod diameters;
mod files;
mod plans;
mod runs;
mod show;
mod table_rows;

use bounds::{byte_at, front, front_words, long_at, rest, sum, word_at};
use files::Lengths;
use plans::{BOUND, NEXT, Room};
use runs::Row;
use show::Out;
use std::io;
use std::io::{Read, Write};

// The calls, by the bytes of the case file; those of files stand there, bound gates and the next plan in plans.
const TABLE: u8 = 0;

const CHECK: u8 = 1;

const WALK: u8 = 2;

const MAKE: u8 = 5;

const STEPS: u8 = 6;

const READ_NETWORK: u8 = 7;

const LIST: u8 = 12;

// The same, of a file that stands where the kinds of a table do.
const LIST_PLACED: u8 = 13;

const CONTRACT: u8 = 14;

const COMPARE: u8 = 15;

const DIAMETER: u8 = 16;

// A case's bytes: the call; the basin count; the lengths of the three rows; those of two buffers; that of the data; how often to go on; the table's number;
// how much is printed, the number of variations, how many cases they make, the length of the name, how many bytes of data there are; the data, which is the
// table where that has no number; the variations; the name.
const TABLE_NUMBER: usize = 17;

const MODE: usize = 19;

const VARIATIONS: usize = 20;

const COUNT: usize = 21;

const NAME: usize = 24;

const LENGTH: usize = 25;

const DATA: usize = 27;

// The calls of the planner and of the walker.
fn ask(
    w: &mut impl Write,
    o: Out,
    c: &[u8],
    kinds: &[u8],
    a: &[u16],
    b: &[u16],
    s: &[u8],
) -> io::Result<Out> {
    let call = byte_at(c, 0);
    let basins = word_at(c, 1);
    let plan = word_at(c, 9) as usize;
    let marks = word_at(c, 11) as usize;
    let room = Room { plan, marks };
    let n = word_at(c, 15) as usize;
    match call {
        TABLE => show::reply(w, o, plans::table_number(basins, kinds, a, b)),
        CHECK => show::reply(w, o, plans::check_number(basins, kinds, a, b, s)),
        WALK => plans::walk(w, o, basins, kinds, a, b, room, n),
        BOUND | NEXT => {
            let got = plans::filled(call, basins, kinds, a, b, s, room);
            plans::show_got(w, o, got, room)
        }
        MAKE => plans::show_made(w, o, basins, kinds, a, b, s, plan),
        _ => plans::steps(w, o, plans::walker_of(s), basins, kinds, a, b, room, n),
    }
}

fn read(w: &mut impl Write, o: Out, c: &[u8], s: &[u8]) -> io::Result<Out> {
    let n = Lengths {
        kinds: word_at(c, 3) as usize,
        a: word_at(c, 5) as usize,
        b: word_at(c, 7) as usize,
    };
    files::show_rows(w, o, files::read(s, n), n)
}

// The lengths of the new rows stand where those of the buffers do, and how often to go on.
fn contract(
    w: &mut impl Write,
    o: Out,
    c: &[u8],
    kinds: &[u8],
    a: &[u16],
    b: &[u16],
) -> io::Result<Out> {
    let n = Lengths {
        kinds: word_at(c, 9) as usize,
        a: word_at(c, 11) as usize,
        b: word_at(c, 15) as usize,
    };
    files::show_rows(
        w,
        o,
        contractions::contracted(word_at(c, 1), kinds, a, b, n),
        n,
    )
}

fn write(
    w: &mut impl Write,
    o: Out,
    c: &[u8],
    kinds: &[u8],
    a: &[u16],
    b: &[u16],
    s: &[u8],
) -> io::Result<Out> {
    let call = byte_at(c, 0);
    let room = word_at(c, 9) as usize;
    let left = files::filled(call, word_at(c, 1), kinds, a, b, s, room);
    files::show_left(w, o, left, room)
}

// One call, on a table whose kinds and ends these are.
fn play_on(
    w: &mut impl Write,
    o: Out,
    c: &[u8],
    kinds: &[u8],
    a: &[u16],
    b: &[u16],
) -> io::Result<Out> {
    let ks = front(kinds, word_at(c, 3) as usize);
    let xs = front_words(a, word_at(c, 5) as usize);
    let ys = front_words(b, word_at(c, 7) as usize);
    let s = front(rest(c, DATA), word_at(c, 13) as usize);
    let room = word_at(c, 9) as usize;
    let n = word_at(c, 15) as usize;
    let call = byte_at(c, 0);
    match call {
        TABLE..=STEPS => ask(w, o, c, ks, xs, ys, s),
        READ_NETWORK => read(w, o, c, s),
        LIST => files::list(w, o, s, room, n),
        LIST_PLACED => files::list(w, o, ks, room, n),
        CONTRACT => contract(w, o, c, ks, xs, ys),
        COMPARE => comparisons::compare(w, o, c, ks, xs, ys, s),
        DIAMETER => diameters::longest(w, o, c, ks, xs, ys, s),
        _ => write(w, o, c, ks, xs, ys, s),
    }
}

fn play_with(w: &mut impl Write, o: Out, c: &[u8], table: &[u8]) -> io::Result<Out> {
    let ends = table_rows::load(table);
    let a = ends.a;
    let b = ends.b;
    play_on(
        w,
        o,
        c,
        front(rest(table, 2), word_at(table, 0) as usize),
        &a,
        &b,
    )
}

// One call, on the table of its case.
fn play(w: &mut impl Write, o: Out, x: Row, file: &[u8]) -> io::Result<Out> {
    let bytes = x.bytes;
    let c = front(&bytes, runs::SIZE);
    let number = word_at(c, TABLE_NUMBER) as usize;
    if number == 0 {
        return play_with(w, o, c, rest(c, DATA));
    }
    let row = runs::row_at(file, long_at(file, 3 * number + 2));
    let table = row.bytes;
    play_with(w, o, c, &table)
}

// The value of number v of a variation: the place of a byte, the number of its values, and the lowest of them.
fn value(variation: &[u8], v: usize) -> u8 {
    let count = word_at(variation, 2) as usize;
    if count == 0 {
        return 0;
    }
    ((v % count % 65536 + byte_at(variation, 4) as usize) % 256) as u8
}

// The number that is left for the variations before it.
fn number_left(v: usize, variation: &[u8]) -> usize {
    let count = word_at(variation, 2) as usize;
    if count == 0 {
        return v;
    }
    v / count
}

// The case of number v; the last variation varies first.
fn varied(c: Row, variations: &[u8], v: usize) -> Row {
    let mut x = c;
    let mut left = v;
    for variation in variations.chunks_exact(5).rev() {
        let i = word_at(variation, 0) as usize;
        if i < runs::SIZE {
            x.bytes[i] = value(variation, left);
        }
        left = number_left(left, variation);
    }
    x
}

// A case with all its variations.
fn play_all(
    w: &mut impl Write,
    o: Out,
    case: Row,
    variations: &[u8],
    count: usize,
    file: &[u8],
) -> io::Result<Out> {
    let mut o = o;
    for v in 0..count {
        o = play(w, o, varied(case, variations, v), file)?;
    }
    Ok(o)
}

// The case at a place. Answers where the next one stands.
fn play_case(w: &mut impl Write, file: &[u8], at: usize) -> io::Result<usize> {
    let case = runs::row_at(file, at);
    let bytes = case.bytes;
    let c = front(&bytes, runs::SIZE);
    let t = rest(c, DATA + word_at(c, LENGTH) as usize);
    let v = 5 * (byte_at(c, VARIATIONS) as usize);
    w.write_all(front(rest(t, v), byte_at(c, NAME) as usize))?;
    write!(w, ":")?;
    let o = Out {
        mode: byte_at(c, MODE),
        number: 255,
        run: 0,
        sum: 0,
    };
    let o = play_all(w, o, case, front(t, v), long_at(c, COUNT), file)?;
    show::end(w, o)?;
    Ok(case.next)
}

// The file: the number of cases, where the first stands, where each table stands, from number 1 on; the tables; the cases.
fn play_cases(w: &mut impl Write, file: &[u8]) -> io::Result<()> {
    let mut at = long_at(file, 2);
    for _ in 0..word_at(file, 0) {
        at = play_case(w, file, at)?;
    }
    Ok(())
}

// The most bytes of the file that are read.
const MOST: usize = 300000;

// Reads the first bytes, as many as the buffer holds or there are, and answers how many.
fn read_full<R: Read>(r: &mut R, buf: &mut [u8]) -> io::Result<usize>
    ensures { IfOk result (λ n. n ≤ length buf.new) }
{
    let mut done = 0;
    while done < buf.len() {
        let n = r.read(&mut buf[done..])?;
        if n == 0 {
            break;
        }
        done += n;
    }
    Ok(done)
}

fn main(rt: HostRuntime) -> io::Result<()> {
    let mut cases = [0u8; MOST];
    let n = read_full(&mut rt.stdin(), &mut cases)?;
    play_cases(&mut rt.stdout(), &cases[..n])
}
