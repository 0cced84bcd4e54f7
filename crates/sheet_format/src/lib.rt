// The sheets' format: the kinds of their records, what the bytes of plan sheets and finding sheets are and are read as, what the reader and the writers
// answer, and the laws of both. The functions over bytes stand in the crates above.
// The functions with a `requires` are for the crates above, which have checked it.

#![tactic(auto)]

ghost use Rattle.std.specs.Prelude.{◌≤◌, length};
ghost use Rattle.sheet_format.specs.Rows.{NextGate};

use file_records::END;
use tables::KIND_GATED;

// The kinds of a plan sheet's records; the end is that of a network file.
pub const PLAN: u8 = 16;

pub const AS_DRAWN: u8 = 17;

pub const TURNED: u8 = 18;

// The kinds of a finding sheet.
pub const SHUT_IN: u8 = 20;

pub const LONE: u8 = 21;

// The kinds that may come in a plan sheet where the head is due, and after it.
pub const PLAN_HEAD_DUE: [u8; 1] = [PLAN];

pub const GATE_DUE: [u8; 3] = [AS_DRAWN, TURNED, END];

// The number of the next gated reach from a reach on, or the number of all reaches if there is none.
pub fn next_gate(kinds: &[u8], from: usize) -> usize
    requires { from ≤ length kinds.now }
    ensures { NextGate kinds.now from result }
{
    for i in from..kinds.len() {
        if kinds[i] == KIND_GATED {
            return i;
        }
    }
    kinds.len()
}
