// The calls over a lent slice of records. Each relay has a table by value, and lends the first n records of its copy.
ghost use Rattle.std.specs.Prelude.{◌≤◌};
ghost use Rattle.test_records.specs.Rooms.{table_room};

use network::{Counts, MAX_REACHES, Reach, Refusal};
use replies::Reply;
use std::cmp::Ordering;
use walker::{Made, Stepped, Walker};

// The records that a table has room for: more than a network may have.
pub const ROOM: usize = MAX_REACHES + 6;

pub fn table_check(n: usize, basins: u16, reaches: [Reach; ROOM]) -> Result<(), Refusal>
    requires { n ≤ table_room }
{
    planner::table_check(basins, &reaches[..n])
}

pub fn check(n: usize, basins: u16, reaches: [Reach; ROOM], setting: &[u8]) -> Result<bool, Refusal>
    requires { n ≤ table_room }
{
    planner::check(basins, &reaches[..n], setting)
}

pub fn diameter(
    n: usize,
    basins: u16,
    reaches: [Reach; ROOM],
    setting: &[u8],
) -> Result<u16, Refusal>
    requires { n ≤ table_room }
{
    diameter::diameter(basins, &reaches[..n], setting)
}

pub fn first_plan(
    n: usize,
    basins: u16,
    reaches: [Reach; ROOM],
    plan: &mut [u8],
    marks: &mut [u8],
) -> Result<Reply, Refusal>
    requires { n ≤ table_room }
{
    planner::first_plan(basins, &reaches[..n], plan, marks)
}

pub fn bound_gates(
    n: usize,
    basins: u16,
    reaches: [Reach; ROOM],
    bytes: &mut [u8],
    marks: &mut [u8],
) -> Result<Reply, Refusal>
    requires { n ≤ table_room }
{
    bound_gates::bound_gates(basins, &reaches[..n], bytes, marks)
}

pub fn next_plan(
    n: usize,
    basins: u16,
    reaches: [Reach; ROOM],
    setting: &[u8],
    plan: &mut [u8],
    marks: &mut [u8],
) -> Result<Reply, Refusal>
    requires { n ≤ table_room }
{
    planner::next_plan(basins, &reaches[..n], setting, plan, marks)
}

pub fn make(n: usize, basins: u16, reaches: [Reach; ROOM], setting: &[u8]) -> Made
    requires { n ≤ table_room }
{
    Walker::make(basins, &reaches[..n], setting)
}

pub fn step(
    n: usize,
    walker: Walker,
    basins: u16,
    reaches: [Reach; ROOM],
    plan: &mut [u8],
    marks: &mut [u8],
) -> Stepped
    requires { n ≤ table_room }
{
    walker.step(basins, &reaches[..n], plan, marks)
}

pub fn write_network(
    n: usize,
    basins: u16,
    reaches: [Reach; ROOM],
    out: &mut [u8],
) -> Result<usize, Refusal>
    requires { n ≤ table_room }
{
    netfile::write_network(basins, &reaches[..n], out)
}

pub fn read_sheet(
    n: usize,
    basins: u16,
    reaches: [Reach; ROOM],
    sheet: &[u8],
    setting: &mut [u8],
) -> Result<usize, Refusal>
    requires { n ≤ table_room }
{
    sheet::read_sheet(basins, &reaches[..n], sheet, setting)
}

pub fn write_sheet(
    n: usize,
    basins: u16,
    reaches: [Reach; ROOM],
    setting: &[u8],
    out: &mut [u8],
) -> Result<usize, Refusal>
    requires { n ≤ table_room }
{
    sheet::write_sheet(basins, &reaches[..n], setting, out)
}

pub fn write_reply(
    n: usize,
    basins: u16,
    reaches: [Reach; ROOM],
    out: &mut [u8],
) -> Result<usize, Refusal>
    requires { n ≤ table_room }
{
    sheet::write_reply(basins, &reaches[..n], out)
}

// What reading a file over records replies, and the table afterwards.
#[derive(Drop)]
pub struct ReadTable {
    pub answer: Result<Counts, Refusal>,
    pub reaches: [Reach; ROOM],
}

pub fn read_network(n: usize, file: &[u8], mut reaches: [Reach; ROOM]) -> ReadTable
    requires { n ≤ table_room }
{
    let answer = netfile::read_network(file, &mut reaches[..n]);
    ReadTable { answer, reaches }
}

// What contracting over records replies, and the buffer afterwards, of which the first k records are lent.
#[derive(Drop)]
pub struct ContractedTable {
    pub answer: Result<Counts, Refusal>,
    pub reaches: [Reach; ROOM],
}

pub fn contract(
    n: usize,
    k: usize,
    basins: u16,
    reaches: [Reach; ROOM],
    mut out: [Reach; ROOM],
) -> ContractedTable
    requires n_le_table_room { n ≤ table_room }
    requires k_le_table_room { k ≤ table_room }
{
    let answer = contraction::contract(basins, &reaches[..n], &mut out[..k]);
    ContractedTable {
        answer,
        reaches: out,
    }
}

// Comparing two sheets over records, in two: their order, and the part of the earlier one.
pub fn compare_order<'a>(
    n: usize,
    basins: u16,
    reaches: [Reach; ROOM],
    first: &'a [u8],
    second: &'a [u8],
) -> Result<Ordering, Refusal>
    requires { n ≤ table_room }
{
    comparison::compare(basins, &reaches[..n], first, second).order
}

pub fn compare_part<'a>(
    n: usize,
    basins: u16,
    reaches: [Reach; ROOM],
    first: &'a [u8],
    second: &'a [u8],
) -> &'a [u8]
    requires { n ≤ table_room }
{
    comparison::compare(basins, &reaches[..n], first, second).part
}
