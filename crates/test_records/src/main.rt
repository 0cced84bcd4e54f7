// Each call over records beside the call over rows, on the same tables of a fixed sequence. All that a call replies and leaves in its buffers goes
// into a sum, and the two sums are printed.

#![tactic(auto)]

mod relays;
mod sums;
mod table;

ghost use Rattle.std.specs.Prelude.{◌≤◌};
ghost use Rattle.test_records.specs.Rooms.{table_room};

use network::{Counts, MAX_BASINS, MAX_REACHES, Reach, Refusal};
use relays::ROOM;
use std::io;
use sums::{BYTES, MARKS, mix, sum};
use table::{Twice, bounded, front, front_words, table, within, within_words};
use walker::Walker;

// The most basins that a network may have.
const BASINS: u16 = MAX_BASINS as u16;

// The least size of a large table: a little less than a network may have.
const MANY: usize = MAX_REACHES - 2;

// The calls.
const TABLE: u8 = 0;

const CHECK: u8 = 1;

const FIRST: u8 = 2;

const NEXT: u8 = 3;

const MAKE: u8 = 4;

const STEP: u8 = 5;

const READ_NETWORK: u8 = 6;

const WRITE_NETWORK: u8 = 7;

const READ_SHEET: u8 = 8;

const WRITE_SHEET: u8 = 9;

const WRITE_REPLY: u8 = 10;

const BOUND: u8 = 11;

const CONTRACT: u8 = 12;

const COMPARE: u8 = 13;

const DIAMETER: u8 = 14;

fn over_rows(
    call: u8,
    basins: u16,
    kinds: &[u8],
    a: &[u16],
    b: &[u16],
    walker: Walker,
    s: &[u8],
    out: &mut [u8],
    marks: &mut [u8],
) -> u64 {
    match call {
        TABLE => sums::of_table(tables::table_check(basins, kinds, a, b)),
        CHECK => sums::of_check(planner_rows::check(basins, kinds, a, b, s)),
        FIRST => sums::of_answer(planner_rows::first_plan(basins, kinds, a, b, out, marks)),
        NEXT => sums::of_answer(planner_rows::next_plan(basins, kinds, a, b, s, out, marks)),
        MAKE => sums::of_made(Walker::make_rows(basins, kinds, a, b, s)),
        STEP => sums::of_stepped(walker.step_rows(basins, kinds, a, b, out, marks)),
        WRITE_NETWORK => sums::of_written(netfile_rows::write_network(basins, kinds, a, b, out)),
        READ_SHEET => sums::of_sheet(sheet_rows::read_sheet(basins, kinds, a, b, s, out)),
        WRITE_SHEET => sums::of_written(sheet_rows::write_sheet(basins, kinds, a, b, s, out)),
        BOUND => sums::of_answer(bound_gates::bound_gates_rows(basins, kinds, a, b, out, marks)),
        DIAMETER => sums::of_diameter(diameter::diameter_rows(basins, kinds, a, b, s)),
        _ => sums::of_written(sheet_rows::write_reply(basins, kinds, a, b, out)),
    }
}

fn over_records(
    call: u8,
    n: usize,
    basins: u16,
    reaches: [Reach; ROOM],
    walker: Walker,
    s: &[u8],
    out: &mut [u8],
    marks: &mut [u8],
) -> u64
    requires { n ≤ table_room }
{
    match call {
        TABLE => sums::of_table(relays::table_check(n, basins, reaches)),
        CHECK => sums::of_check(relays::check(n, basins, reaches, s)),
        FIRST => sums::of_answer(relays::first_plan(n, basins, reaches, out, marks)),
        NEXT => sums::of_answer(relays::next_plan(n, basins, reaches, s, out, marks)),
        MAKE => sums::of_made(relays::make(n, basins, reaches, s)),
        STEP => sums::of_stepped(relays::step(n, walker, basins, reaches, out, marks)),
        WRITE_NETWORK => sums::of_written(relays::write_network(n, basins, reaches, out)),
        READ_SHEET => sums::of_sheet(relays::read_sheet(n, basins, reaches, s, out)),
        WRITE_SHEET => sums::of_written(relays::write_sheet(n, basins, reaches, s, out)),
        BOUND => sums::of_answer(relays::bound_gates(n, basins, reaches, out, marks)),
        DIAMETER => sums::of_diameter(relays::diameter(n, basins, reaches, s)),
        _ => sums::of_written(relays::write_reply(n, basins, reaches, out)),
    }
}

// What a lent buffer holds before a call.
const OLD: u8 = 170;

// A call over rows, with an output of p bytes: the sum of what it replies and leaves.
fn rows(
    call: u8,
    basins: u16,
    kinds: &[u8],
    a: &[u16],
    b: &[u16],
    walker: Walker,
    s: &[u8],
    p: usize,
) -> u64 {
    let mut out = [OLD; BYTES];
    let mut marks = [OLD; MARKS];
    let k = within(&out, p);
    let x = over_rows(
        call,
        basins,
        kinds,
        a,
        b,
        walker,
        s,
        &mut out[..k],
        &mut marks,
    );
    sums::total(x, &out, &marks)
}

// The same call over records.
fn records(
    call: u8,
    n: usize,
    basins: u16,
    reaches: [Reach; ROOM],
    walker: Walker,
    s: &[u8],
    p: usize,
) -> u64
    requires { n ≤ table_room }
{
    let mut out = [OLD; BYTES];
    let mut marks = [OLD; MARKS];
    let k = within(&out, p);
    let x = over_records(
        call,
        n,
        basins,
        reaches,
        walker,
        s,
        &mut out[..k],
        &mut marks,
    );
    sums::total(x, &out, &marks)
}

// The sums of a call over rows and over records.
#[derive(Drop)]
struct Pair {
    rows: u64,
    records: u64,
}

// A call on the first n reaches of a table.
fn both(call: u8, n: usize, basins: u16, t: Twice, s: &[u8], p: usize) -> Pair
    requires { n ≤ table_room }
{
    let kinds = t.kinds;
    let a = t.a;
    let b = t.b;
    let reaches = t.reaches;
    let bits = t.bits;
    let walker = Walker { setting: bits };
    Pair {
        rows: rows(
            call,
            basins,
            front(&kinds, n),
            front_words(&a, n),
            front_words(&b, n),
            walker,
            s,
            p,
        ),
        records: records(call, n, basins, reaches, walker, s, p),
    }
}

// A file is read into a table, and all of the table is written.
fn reread_rows(kinds: &mut [u8], a: &mut [u16], b: &mut [u16], walker: Walker, s: &[u8]) -> u64 {
    let x = sums::of_counts(netfile_rows::read_network(s, kinds, a, b));
    mix(
        x,
        rows(WRITE_NETWORK, BASINS, kinds, a, b, walker, s, BYTES),
    )
}

fn reread_records(n: usize, reaches: [Reach; ROOM], walker: Walker, s: &[u8]) -> u64
    requires { n ≤ table_room }
{
    let r = relays::read_network(n, s, reaches);
    let answer = r.answer;
    let after = r.reaches;
    mix(
        sums::of_counts(answer),
        records(WRITE_NETWORK, n, BASINS, after, walker, s, BYTES),
    )
}

fn reread(n: usize, t: Twice, s: &[u8]) -> Pair
    requires { n ≤ table_room }
{
    let mut kinds = t.kinds;
    let mut a = t.a;
    let mut b = t.b;
    let reaches = t.reaches;
    let bits = t.bits;
    let walker = Walker { setting: bits };
    let k = within(&kinds, n);
    let x = within_words(&a, n);
    let y = within_words(&b, n);
    Pair {
        rows: reread_rows(&mut kinds[..k], &mut a[..x], &mut b[..y], walker, s),
        records: reread_records(n, reaches, walker, s),
    }
}

// What contracting answers over rows, and the rows afterwards.
#[derive(Drop)]
struct Contracted {
    answer: Result<Counts, Refusal>,
    kinds: [u8; ROOM],
    a: [u16; ROOM],
    b: [u16; ROOM],
}

// A table is contracted into the first k reaches of another.
fn contract_rows(
    basins: u16,
    kinds: &[u8],
    a: &[u16],
    b: &[u16],
    k: usize,
    into: Twice,
) -> Contracted {
    let mut kinds2 = into.kinds;
    let mut a2 = into.a;
    let mut b2 = into.b;
    let p = within(&kinds2, k);
    let x = within_words(&a2, k);
    let y = within_words(&b2, k);
    let answer = contraction::contract_rows(
        basins,
        kinds,
        a,
        b,
        &mut kinds2[..p],
        &mut a2[..x],
        &mut b2[..y],
    );
    Contracted {
        answer,
        kinds: kinds2,
        a: a2,
        b: b2,
    }
}

// The sum of the answer, and of all of the other table that a network may have, written.
fn contracted_rows(c: Contracted, walker: Walker) -> u64 {
    let kinds = c.kinds;
    let a = c.a;
    let b = c.b;
    let answer = c.answer;
    let s = walker.setting;
    let written = rows(
        WRITE_NETWORK,
        BASINS,
        front(&kinds, MAX_REACHES),
        front_words(&a, MAX_REACHES),
        front_words(&b, MAX_REACHES),
        walker,
        &s,
        BYTES,
    );
    mix(sums::of_counts(answer), written)
}

fn contracted_records(
    n: usize,
    k: usize,
    basins: u16,
    reaches: [Reach; ROOM],
    out: [Reach; ROOM],
    walker: Walker,
) -> u64
    requires n_le_table_room { n ≤ table_room }
    requires k_le_table_room { k ≤ table_room }
{
    let c = relays::contract(n, k, basins, reaches, out);
    let answer = c.answer;
    let after = c.reaches;
    let s = walker.setting;
    mix(
        sums::of_counts(answer),
        records(WRITE_NETWORK, MAX_REACHES, BASINS, after, walker, &s, BYTES),
    )
}

fn contract(n: usize, k: usize, basins: u16, t: Twice, into: Twice) -> Pair
    requires n_le_table_room { n ≤ table_room }
    requires k_le_table_room { k ≤ table_room }
{
    let kinds = t.kinds;
    let a = t.a;
    let b = t.b;
    let reaches = t.reaches;
    let out = into.reaches;
    let bits = into.bits;
    let walker = Walker { setting: bits };
    let c = contract_rows(
        basins,
        front(&kinds, n),
        front_words(&a, n),
        front_words(&b, n),
        k,
        into,
    );
    Pair {
        rows: contracted_rows(c, walker),
        records: contracted_records(n, k, basins, reaches, out, walker),
    }
}

// A buffer, of which the first n bytes count.
#[derive(Drop)]
struct Bytes {
    n: usize,
    bytes: [u8; BYTES],
}

// What a call over rows writes, of a table and a setting. Of a file its length counts, for some seeds a byte less.
fn written(call: u8, n: usize, basins: u16, t: Twice, s: &[u8], seed: u64) -> Bytes {
    let kinds = t.kinds;
    let a = t.a;
    let b = t.b;
    let bits = t.bits;
    let walker = Walker { setting: bits };
    let mut bytes = [0u8; BYTES];
    let mut marks = [0u8; MARKS];
    let x = over_rows(
        call,
        basins,
        front(&kinds, n),
        front_words(&a, n),
        front_words(&b, n),
        walker,
        s,
        &mut bytes,
        &mut marks,
    );
    let less = 100 + seed % 4 / 3;
    let n = if x < less { 0 } else { (x - less) as usize };
    Bytes { n, bytes }
}

// The sheet of the next plan after the setting of a table.
fn next_sheet(n: usize, basins: u16, t: Twice) -> Bytes {
    let kinds = t.kinds;
    let bits = t.bits;
    let g = tables::count_gates(front(&kinds, n));
    let p = written(NEXT, n, basins, t, front(&bits, g), 0);
    let plan = p.bytes;
    written(WRITE_SHEET, n, basins, t, front(&plan, g), 0)
}

// Two sheets are compared: the sum of their order and of the part.
fn compare_rows<'a>(
    basins: u16,
    kinds: &[u8],
    a: &[u16],
    b: &[u16],
    first: &'a [u8],
    second: &'a [u8],
) -> u64 {
    let order = comparison::order_rows(basins, kinds, a, b, first, second);
    sum(
        sums::of_order(order),
        sheet_order::part(order, first, second),
    )
}

fn compare_records<'a>(
    n: usize,
    basins: u16,
    reaches: [Reach; ROOM],
    first: &'a [u8],
    second: &'a [u8],
) -> u64
    requires { n ≤ table_room }
{
    let order = relays::compare_order(n, basins, reaches, first, second);
    sum(
        sums::of_order(order),
        relays::compare_part(n, basins, reaches, first, second),
    )
}

fn compare(n: usize, basins: u16, t: Twice, f: Bytes, g: Bytes) -> Pair
    requires { n ≤ table_room }
{
    let kinds = t.kinds;
    let a = t.a;
    let b = t.b;
    let reaches = t.reaches;
    let first = f.bytes;
    let second = g.bytes;
    let x = front(&first, f.n);
    let y = front(&second, g.n);
    Pair {
        rows: compare_rows(
            basins,
            front(&kinds, n),
            front_words(&a, n),
            front_words(&b, n),
            x,
            y,
        ),
        records: compare_records(n, basins, reaches, x, y),
    }
}

// How many reaches the table of a seed has: a few, or about as many as a network may have.
fn size(seed: u64) -> usize {
    if seed % 32 == 31 {
        MANY + (seed / 32 % 8) as usize
    } else {
        (seed % 9) as usize
    }
}

// The basin count of a seed, for ends below a bound: sometimes one less, so that ends are out of range.
fn basins_of(seed: u64, ends: u64) -> u16 {
    if ends == 0 {
        return 0;
    }
    ((ends - seed % 7 / 6) % 65536) as u16
}

// The room of an output: mostly enough.
fn room(seed: u64) -> usize {
    if seed % 8 == 3 { 2 } else { BYTES }
}

// The room for a contracted table of n reaches: mostly enough, and up to three more.
fn new_room(seed: u64, n: usize) -> usize {
    if seed % 8 == 3 {
        return n / 2;
    }
    if n < ROOM {
        n + (seed / 8 % 4) as usize
    } else {
        n
    }
}

// A call that is lent the setting of a table.
fn on_setting(call: u8, n: usize, basins: u16, t: Twice, p: usize) -> Pair
    requires { n ≤ table_room }
{
    let kinds = t.kinds;
    let bits = t.bits;
    let g = tables::count_gates(front(&kinds, n));
    both(call, n, basins, t, front(&bits, g), p)
}

// A reader that is lent a file.
fn on_file(call: u8, n: usize, basins: u16, t: Twice, f: Bytes, p: usize) -> Pair
    requires { n ≤ table_room }
{
    let bytes = f.bytes;
    let s = front(&bytes, f.n);
    if call == READ_NETWORK {
        reread(n, t, s)
    } else {
        both(call, n, basins, t, s, p)
    }
}

// A call on the table of a seed. A file is read into the table of the seed after it, and a contracted table is put there.
fn play(call: u8, seed: u64) -> Pair {
    let n = bounded(size(seed));
    let ends = 2 + seed % 3;
    let basins = basins_of(seed, ends);
    let t = table(seed, n, ends);
    if call == READ_NETWORK {
        let f = written(WRITE_NETWORK, n, basins, t, b"", seed);
        return on_file(call, n, basins, table(seed % 65536 + 1, n, ends), f, 0);
    }
    if call == READ_SHEET {
        let f = written(WRITE_REPLY, n, basins, t, b"", seed);
        return on_file(call, n, basins, t, f, room(seed));
    }
    if call == COMPARE {
        let f = written(WRITE_REPLY, n, basins, t, b"", seed / 32);
        let g = next_sheet(n, basins, t);
        if seed % 2 == 0 {
            return compare(n, basins, t, f, g);
        }
        return compare(n, basins, t, g, f);
    }
    if call == CONTRACT {
        let into = table(seed % 65536 + 1, MAX_REACHES, ends);
        return contract(n, bounded(new_room(seed, n)), basins, t, into);
    }
    on_setting(call, n, basins, t, room(seed))
}

// A call on the tables of all seeds.
fn play_all(call: u8) -> Pair {
    let mut o = Pair {
        rows: 0,
        records: 0,
    };
    for seed in (0..256).rev() {
        let x = play(call, seed);
        o = Pair {
            rows: mix(o.rows, x.rows),
            records: mix(o.records, x.records),
        };
    }
    o
}

fn show(rt: &impl Print, name: &str, call: u8) -> io::Result<()> {
    let o = play_all(call);
    println!(rt; "{name}: rows #{:06x}, records #{:06x}", o.rows, o.records)
}

fn main(rt: HostRuntime) -> io::Result<()> {
    show(&rt, "table check", TABLE)?;
    show(&rt, "check", CHECK)?;
    show(&rt, "first plan", FIRST)?;
    show(&rt, "next plan", NEXT)?;
    show(&rt, "make a walker", MAKE)?;
    show(&rt, "step", STEP)?;
    show(&rt, "read a network", READ_NETWORK)?;
    show(&rt, "write a network", WRITE_NETWORK)?;
    show(&rt, "read a sheet", READ_SHEET)?;
    show(&rt, "write a sheet", WRITE_SHEET)?;
    show(&rt, "write the reply", WRITE_REPLY)?;
    show(&rt, "bound gates", BOUND)?;
    show(&rt, "contract", CONTRACT)?;
    show(&rt, "compare two sheets", COMPARE)?;
    show(&rt, "diameter", DIAMETER)
}
