// The network file's format: the kinds of its records, what its bytes are and are read as, what the reader and the writer answer, and the laws of both.
// The functions stand in the crates above.

#![tactic(auto)]

use file_records::END;
use network::Refusal;

// The kinds of a network file's records.
pub const HEAD: u8 = 1;

pub const GATED: u8 = 2;

pub const FLAP: u8 = 3;

pub const TWO_WAY: u8 = 4;

// A shut reach; the last byte of its body is the kind that it goes back to.
pub const SHUT: u8 = 5;

// By how much the number of a shut reach's state exceeds that of its kind; the numbers below it are those of reaches in service.
pub const SHUT_OFFSET: u8 = 3;

// The kinds that may come where the head is due, and after it.
pub const HEAD_DUE: [u8; 1] = [HEAD];

pub const REACH_DUE: [u8; 5] = [GATED, FLAP, TWO_WAY, SHUT, END];
