// The records of a network written into a buffer. The functions with a `requires` are for the crate `netfile_rows`, which has checked it.

#![tactic(auto)]

ghost use Rattle.std.specs.Prelude.{◌≡◌, ◌∷◌, ◌++◌, ◌+◌, ◌≤◌, ◌<◌, length};
ghost use Rattle.std.proofs.lemmas.List.Edits.{sets};
ghost use Rattle.network.specs.Networks.{max_reaches, kind_in};
ghost use Rattle.network.specs.Tables.{state_of, table_of};
ghost use Rattle.tables.specs.Rows.{net_of};
ghost use Rattle.file_records.specs.Records.{two_bytes};
ghost use Rattle.netfile_format.specs.Files.{reach_kind, reach_record, reach_records, file_of};
ghost use Rattle.netfile_format.specs.Answers.{state_length};

use file_records::put_word;
use netfile_format::{FLAP, GATED, SHUT, SHUT_OFFSET, TWO_WAY};

// The kind byte of a reach's kind, which a shut reach goes back to, by the number of its state.
fn kind_byte(state: u8) -> u8
    ensures { result ≡ reach_kind (kind_in (state_of state)) }
{
    match state {
        0 | 3 => GATED,
        1 | 4 => FLAP,
        _ => TWO_WAY,
    }
}

// The length of a reach's record, by the number of its state.
fn state_length(state: u8) -> usize
    ensures { result ≡ state_length (state_of state) }
{
    if state < SHUT_OFFSET { 5 } else { 6 }
}

// The length of the file of a network, whatever its basin count.
pub fn file_length(kinds: &[u8], a: &[u16], b: &[u16]) -> usize
    requires { length (table_of kinds.now a.now b.now) ≤ max_reaches }
    ensures { result ≡ length (file_of (net_of 0 kinds.now a.now b.now)) }
{
    let n = tables::row_count(kinds, a, b);
    let mut size: usize = 4;
    for &state in &kinds[..n] {
        size += state_length(state);
    }
    size
}

// A kind byte and two ends.
fn put_ends(out: &mut [u8], at: usize, kind: u8, a: u16, b: u16)
    requires { at + 4 < length out.old }
    ensures { out.new ≡ sets out.old at (kind ∷ (two_bytes a ++ two_bytes b)) }
{
    out[at] = kind;
    put_word(out, at + 1, a);
    put_word(out, at + 3, b);
}

// The record of a reach. A shut one has its kind behind its ends.
fn put_reach(out: &mut [u8], at: usize, state: u8, a: u16, b: u16)
    requires { at + state_length (state_of state) ≤ length out.old }
    ensures { out.new ≡ sets out.old at (reach_record (record { state = state_of state; a = a; b = b })) }
{
    let kind = kind_byte(state);
    if state < SHUT_OFFSET {
        put_ends(out, at, kind, a, b);
        return;
    }
    put_ends(out, at, SHUT, a, b);
    out[at + 5] = kind;
}

// The records of a table go behind the head.
pub fn put_reaches(kinds: &[u8], a: &[u16], b: &[u16], out: &mut [u8])
    requires { 3 + length (reach_records (table_of kinds.now a.now b.now)) < length out.old }
    ensures { out.new ≡ sets out.old 3 (reach_records (table_of kinds.now a.now b.now)) }
{
    let mut at: usize = 3;
    for ((&state, &a), &b) in kinds.iter().zip(a).zip(b) {
        put_reach(out, at, state, a, b);
        at += state_length(state);
    }
}
