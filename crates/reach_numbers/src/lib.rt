// One record of the lent reach table as the numbers that stand of it in rows, and back; and how many reaches go into rows, or out of them.

#![tactic(auto)]

ghost use Rattle.std.specs.Prelude.{◌≡◌};
ghost use Rattle.network.specs.Tables.{state_of, state_number};
ghost use Rattle.reach_numbers.specs.Records.{held_of, numbers_of, fitting_of, filling_of};

use network::{Kind, MAX_REACHES, Reach, State};
use tables::least;

// How many reaches the rows have room for: one more than a network may have, so that rows show that a table is over-full.
pub const MAX_ROWS: usize = MAX_REACHES + 1;

// The number of a state in a row. It and `state_of` are no `From`: an impl of std's trait between `State` and `u8` can stand only in the crate that has `State`.
fn number(s: State) -> u8
    ensures { result ≡ state_number s }
{
    match s {
        State::InService(Kind::Gated) => 0,
        State::InService(Kind::Flap) => 1,
        State::InService(Kind::TwoWay) => 2,
        State::Shut(Kind::Gated) => 3,
        State::Shut(Kind::Flap) => 4,
        State::Shut(Kind::TwoWay) => 5,
    }
}

// How many of n reaches the rows hold: as many as they have room for.
fn held(n: usize) -> usize
    ensures { result ≡ held_of n }
{
    if n < MAX_ROWS { n } else { MAX_ROWS }
}

// What stands of a reach in the three rows.
#[derive(Clone, Copy)]
pub struct Numbers {
    pub kind: u8,
    pub a: u16,
    pub b: u16,
}

// A record taken apart.
pub fn numbers_of(r: Reach) -> Numbers
    ensures { result ≡ numbers_of r }
{
    let s = r.state;
    Numbers {
        kind: number(s),
        a: r.a,
        b: r.b,
    }
}

// How many of n reaches go into rows with room for x, y and z.
pub fn fitting(n: usize, x: usize, y: usize, z: usize) -> usize
    ensures { result ≡ fitting_of n x y z }
{
    least(z, least(y, least(x, held(n))))
}

// The state that a number of a row stands for.
fn state_of(k: u8) -> State
    ensures { result ≡ state_of k }
{
    match k {
        0 => State::InService(Kind::Gated),
        1 => State::InService(Kind::Flap),
        2 => State::InService(Kind::TwoWay),
        3 => State::Shut(Kind::Gated),
        4 => State::Shut(Kind::Flap),
        _ => State::Shut(Kind::TwoWay),
    }
}

// A record put together.
pub fn reach_of(kind: u8, a: u16, b: u16) -> Reach
    ensures { result ≡ record { state = state_of kind; a = a; b = b } }
{
    let s = state_of(kind);
    Reach { state: s, a, b }
}

// How many of n reaches go into a table with this room, out of rows that hold x, y and z numbers.
pub fn filling(n: usize, x: usize, y: usize, z: usize, room: usize) -> usize
    ensures { result ≡ filling_of n x y z room }
{
    least(room, least(z, least(y, least(x, n))))
}
