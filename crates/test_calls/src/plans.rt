// The planner's and the walker's calls.
use crate::bounds::{OLD, front, sum, within};
use crate::show;
use crate::show::Out;
use marks::MARK_BYTES;
use network::{MAX_REACHES, Refusal};
use replies::{Finding, Reply, Verdict};
use std::io;
use std::io::Write;
use walker::Walker;

// Document 01's number of a refusal.
pub fn number(r: Refusal) -> u8 {
    u8::from(r)
}

// What the table gets, and the check of a setting.
pub fn table_number(basins: u16, kinds: &[u8], a: &[u16], b: &[u16]) -> u8 {
    match tables::table_check(basins, kinds, a, b) {
        Err(r) => number(r),
        Ok(()) => 0,
    }
}

pub fn check_number(basins: u16, kinds: &[u8], a: &[u16], b: &[u16], setting: &[u8]) -> u8 {
    match planner_rows::check(basins, kinds, a, b, setting) {
        Err(r) => number(r),
        Ok(true) => show::YES,
        Ok(false) => show::NO,
    }
}

// A finding's number, reach and count.
fn show_finding(w: &mut impl Write, o: Out, number: u8, f: Finding) -> io::Result<Out> {
    let o = show::reply_with(w, o, number, f.reach as u64)?;
    show::value(w, o, f.count as u64)
}

// What first and next plan answer: 0 for a plan, else the number.
fn show_answer(w: &mut impl Write, o: Out, answer: Result<Reply, Refusal>) -> io::Result<Out> {
    match answer {
        Err(r) => show::reply(w, o, number(r)),
        Ok(reply) => match reply.verdict {
            Verdict::Plan => show::reply(w, o, 0),
            Verdict::ShutIn(f) => show_finding(w, o, 9, f),
            Verdict::Lone(f) => show_finding(w, o, 10, f),
        },
    }
}

// The lengths of the buffers that are lent.
#[derive(Clone, Copy)]
pub struct Room {
    pub plan: usize,
    pub marks: usize,
}

// The bytes that the buffers have room for: more than a byte for each reach, and a bit for each basin.
const PLAN: usize = MAX_REACHES + 16;

const MARKS: usize = MARK_BYTES + 8;

// An answer, and the buffers afterwards.
#[derive(Clone, Copy)]
pub struct Got {
    answer: Result<Reply, Refusal>,
    plan: [u8; PLAN],
    marks: [u8; MARKS],
}

// The calls that are lent a buffer with a byte for each gate and one for marks, by the bytes of the case file.
const FIRST: u8 = 2;

pub const BOUND: u8 = 3;

pub const NEXT: u8 = 4;

fn fill(
    call: u8,
    basins: u16,
    kinds: &[u8],
    a: &[u16],
    b: &[u16],
    s: &[u8],
    plan: &mut [u8],
    marks: &mut [u8],
) -> Result<Reply, Refusal> {
    match call {
        FIRST => planner_rows::first_plan(basins, kinds, a, b, plan, marks),
        BOUND => bound_gates::bound_gates_rows(basins, kinds, a, b, plan, marks),
        _ => planner_rows::next_plan(basins, kinds, a, b, s, plan, marks),
    }
}

pub fn filled(
    call: u8,
    basins: u16,
    kinds: &[u8],
    a: &[u16],
    b: &[u16],
    s: &[u8],
    room: Room,
) -> Got {
    let mut plan = [OLD; PLAN];
    let mut marks = [OLD; MARKS];
    let p = within(&plan, room.plan);
    let m = within(&marks, room.marks);
    let answer = fill(
        call,
        basins,
        kinds,
        a,
        b,
        s,
        &mut plan[..p],
        &mut marks[..m],
    );
    Got {
        answer,
        plan,
        marks,
    }
}

// Prints an answer and the buffers, with two bytes beyond each.
pub fn show_got(w: &mut impl Write, o: Out, g: Got, room: Room) -> io::Result<Out> {
    let plan = g.plan;
    let marks = g.marks;
    let answer = g.answer;
    let o = show_answer(w, o, answer)?;
    let o = show::bytes(w, o, front(&plan, sum(room.plan, 2)))?;
    show::bytes(w, o, front(&marks, sum(room.marks, 2)))
}

// A step's answer and buffers, and the walker after it.
#[derive(Clone, Copy)]
struct Step {
    got: Got,
    walker: Walker,
}

fn take_step(walker: Walker, basins: u16, kinds: &[u8], a: &[u16], b: &[u16], room: Room) -> Step {
    let mut plan = [OLD; PLAN];
    let mut marks = [OLD; MARKS];
    let p = within(&plan, room.plan);
    let m = within(&marks, room.marks);
    let stepped = walker.step_rows(basins, kinds, a, b, &mut plan[..p], &mut marks[..m]);
    let answer = stepped.answer;
    let walker = stepped.walker;
    let got = Got {
        answer,
        plan,
        marks,
    };
    Step { got, walker }
}

// A walker's first n bytes, and all of them to the sum.
fn show_setting(
    w: &mut impl Write,
    o: Out,
    setting: &[u8; MAX_REACHES],
    n: usize,
) -> io::Result<Out> {
    let o = show::bytes(w, o, front(setting, n))?;
    show::bytes(w, o, setting)
}

fn show_step(w: &mut impl Write, o: Out, s: Step, room: Room) -> io::Result<Out> {
    let walker = s.walker;
    let setting = walker.setting;
    let got = s.got;
    let o = show_got(w, o, got, room)?;
    show_setting(w, o, &setting, sum(room.plan, 2))
}

// The walker of these bytes, with untouched ones after them.
pub fn walker_of(s: &[u8]) -> Walker {
    let mut setting = [OLD; MAX_REACHES];
    for (to, &x) in setting.iter_mut().zip(s) {
        *to = x;
    }
    Walker { setting }
}

// Makes a walker of a setting.
pub fn show_made(
    w: &mut impl Write,
    o: Out,
    basins: u16,
    kinds: &[u8],
    a: &[u16],
    b: &[u16],
    s: &[u8],
    n: usize,
) -> io::Result<Out> {
    let made = Walker::make_rows(basins, kinds, a, b, s);
    let walker = made.walker;
    let setting = walker.setting;
    let number = match made.answer {
        Err(r) => number(r),
        Ok(()) => 0,
    };
    let o = show::reply(w, o, number)?;
    show_setting(w, o, &setting, n)
}

// The next plan of the plan that was got.
fn after(g: Got, basins: u16, kinds: &[u8], a: &[u16], b: &[u16], room: Room) -> Got {
    let plan = g.plan;
    filled(
        NEXT,
        basins,
        kinds,
        a,
        b,
        front(&plan, tables::count_gates(kinds)),
        room,
    )
}

// The first plan and the next ones, to a refusal, or so many of these.
pub fn walk(
    w: &mut impl Write,
    o: Out,
    basins: u16,
    kinds: &[u8],
    a: &[u16],
    b: &[u16],
    room: Room,
    n: usize,
) -> io::Result<Out> {
    let mut g = filled(FIRST, basins, kinds, a, b, kinds, room);
    let mut o = show_got(w, o, g, room)?;
    for _ in 0..n {
        if o.number != 0 {
            return Ok(o);
        }
        g = after(g, basins, kinds, a, b, room);
        o = show_got(w, o, g, room)?;
    }
    Ok(o)
}

// A step of a walker and those after it, to a refusal, or so many of these.
pub fn steps(
    w: &mut impl Write,
    o: Out,
    walker: Walker,
    basins: u16,
    kinds: &[u8],
    a: &[u16],
    b: &[u16],
    room: Room,
    n: usize,
) -> io::Result<Out> {
    let mut s = take_step(walker, basins, kinds, a, b, room);
    let mut o = show_step(w, o, s, room)?;
    for _ in 0..n {
        if o.number != 0 {
            return Ok(o);
        }
        let walker = s.walker;
        s = take_step(walker, basins, kinds, a, b, room);
        o = show_step(w, o, s, room)?;
    }
    Ok(o)
}
