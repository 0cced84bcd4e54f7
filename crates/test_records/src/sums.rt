// What a call replies, as a number, and the sum of all that it leaves.
use marks::MARK_BYTES;
use network::{Counts, MAX_REACHES, Refusal};
use replies::{Finding, Reply, Verdict};
use std::cmp::Ordering;
use walker::{Made, Stepped};

// The bytes of an output: more than a file or a sheet may have.
pub const BYTES: usize = 6 * MAX_REACHES + 56;

// The bytes for marks: more than marks have.
pub const MARKS: usize = MARK_BYTES + 8;

pub fn mix(x: u64, y: u64) -> u64 {
    (x % 16777213 * 257 + y % 65536 + 1) % 16777213
}

fn added(x: u64, y: u8) -> u64 {
    mix(x, y as u64)
}

pub fn sum(x: u64, s: &[u8]) -> u64 {
    s.iter().fold(x, |x, &y| added(x, y))
}

// What a call replied, and its buffers.
pub fn total(x: u64, out: &[u8; BYTES], marks: &[u8; MARKS]) -> u64 {
    sum(sum(x, out), marks)
}

// Document 01's number of a refusal.
fn number(r: Refusal) -> u64 {
    u64::from(u8::from(r))
}

pub fn of_diameter(answer: Result<u16, Refusal>) -> u64 {
    match answer {
        Err(r) => number(r),
        Ok(d) => 100 + d as u64,
    }
}

pub fn of_table(answer: Result<(), Refusal>) -> u64 {
    match answer {
        Err(r) => number(r),
        Ok(()) => 0,
    }
}

pub fn of_check(answer: Result<bool, Refusal>) -> u64 {
    match answer {
        Err(r) => number(r),
        Ok(true) => 16,
        Ok(false) => 17,
    }
}

fn of_finding(number: u64, f: Finding) -> u64 {
    mix(mix(number, f.reach as u64), f.count as u64)
}

pub fn of_answer(answer: Result<Reply, Refusal>) -> u64 {
    match answer {
        Err(r) => number(r),
        Ok(reply) => match reply.verdict {
            Verdict::Plan => 0,
            Verdict::ShutIn(f) => of_finding(9, f),
            Verdict::Lone(f) => of_finding(10, f),
        },
    }
}

pub fn of_stepped(s: Stepped) -> u64 {
    sum(of_answer(s.answer), &s.walker.setting)
}

pub fn of_made(m: Made) -> u64 {
    sum(of_table(m.answer), &m.walker.setting)
}

// Above 100, the length of what was written.
pub fn of_written(answer: Result<usize, Refusal>) -> u64 {
    match answer {
        Err(r) => number(r),
        Ok(length) => 100 + (length % 65536) as u64,
    }
}

pub fn of_sheet(answer: Result<usize, Refusal>) -> u64 {
    match answer {
        Err(r) => number(r),
        Ok(length) => mix(0, length as u64),
    }
}

pub fn of_counts(answer: Result<Counts, Refusal>) -> u64 {
    match answer {
        Err(r) => number(r),
        Ok(counts) => mix(mix(0, counts.basins as u64), counts.reaches as u64),
    }
}

pub fn of_order(order: Result<Ordering, Refusal>) -> u64 {
    match order {
        Err(r) => number(r),
        Ok(Ordering::Equal) => 20,
        Ok(Ordering::Less) => 21,
        Ok(Ordering::Greater) => 22,
    }
}
