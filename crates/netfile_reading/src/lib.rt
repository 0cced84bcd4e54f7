// Network files read: a file is judged to its end, and its reaches go to rows. The functions with a `requires` are for the crate `netfile_rows`, which has
// checked it.

#![tactic(auto)]

ghost use Rattle.tables.specs.Rows.{RowsFilled};
ghost use Rattle.std.specs.Prelude.{◌≡◌, ◌+◌, ◌≤◌, true, false, length, drop, MatchOption};
ghost use Rattle.network.specs.Networks.{max_reaches};
ghost use Rattle.network.specs.declared.State.TheVariants.{InService};
ghost use Rattle.network.specs.Tables.{state_number};
ghost use Rattle.file_records.specs.Records.{take_record, taken_answer};
ghost use Rattle.netfile_format.specs.Files.{known_kind, reach_due, record_kind, record_state, good_inner, read_reaches, read_file};
ghost use Rattle.netfile_format.specs.Answers.{read_answer, record_length, reaches_at, Fills};

use file_records::{END, take_record, word_at};
use netfile_format::{FLAP, GATED, HEAD_DUE, REACH_DUE, SHUT, SHUT_OFFSET, TWO_WAY};
use network::{Counts, MAX_BASINS, MAX_REACHES, Refusal};

// The record at a position after the head, a reach or the end.
fn reach_or_end(file: &[u8], at: usize) -> Result<u8, Refusal>
    ensures { result ≡ taken_answer (take_record reach_due (drop at file.now)) }
{
    take_record(file, at, &REACH_DUE)
}

// Whether a reach in service may have this kind byte.
fn known_kind(kind: u8) -> bool
    ensures { result ≡ known_kind kind }
{
    if kind < GATED {
        return false;
    }
    if TWO_WAY < kind {
        return false;
    }
    true
}

// The number of a kind, by its kind byte.
fn kind_number(kind: u8) -> u8
    ensures value { result ≡ state_number (InService (record_kind kind)) }
    ensures upper_bound { result ≤ 2 }
{
    if kind == GATED {
        return 0;
    }
    if kind == FLAP {
        return 1;
    }
    2
}

// The length of the record of this kind at a position, if its inner kind, which only a shut reach has, is known.
fn known_length(file: &[u8], at: usize, kind: u8) -> Option<usize>
    requires { at + record_length kind ≤ length file.now }
    ensures { MatchOption result (good_inner kind (drop (at + 1) file.now) ≡ false)
        (λ size. (good_inner kind (drop (at + 1) file.now) ≡ true) × (size ≡ record_length kind)) }
{
    if kind != SHUT {
        return Some(5);
    }
    if known_kind(file[at + 5]) {
        Some(6)
    } else {
        None
    }
}

// The number of a reach's state, and the length of its record.
#[derive(Drop)]
struct Front {
    state: u8,
    size: usize,
}

// What the record of this kind at a position says of its reach's state.
fn record_front(file: &[u8], at: usize, kind: u8) -> Front
    requires { at + record_length kind ≤ length file.now }
    ensures state_value { result.state ≡ state_number (record_state kind (drop (at + 1) file.now)) }
    ensures size_value { result.size ≡ record_length kind }
{
    if kind == SHUT {
        let inner = file[at + 5];
        let state = kind_number(inner) + SHUT_OFFSET;
        return Front { state, size: 6 };
    }
    let state = kind_number(kind);
    Front { state, size: 5 }
}

// The reaches and the end, which start after the head. Per record: its kind (5), its body (4), its inner kind (5), one reach too many (2), its ends (3); after
// the end 6.
fn check_reaches(file: &[u8], basins: u16) -> Result<Counts, Refusal>
    requires { 3 ≤ length file.now }
    ensures { result ≡ read_answer (read_reaches basins max_reaches (drop 3 file.now)) }
{
    let mut at: usize = 3;
    let mut reaches: usize = 0;
    loop {
        let kind = reach_or_end(file, at)?;
        if kind == END {
            if at + 1 < file.len() {
                return Err(Refusal::TrailingBytes);
            }
            return Ok(Counts { basins, reaches });
        }
        let Some(size) = known_length(file, at, kind) else {
            return Err(Refusal::UnknownKind);
        };
        if reaches == MAX_REACHES {
            return Err(Refusal::TooManyReaches);
        }
        if basins <= word_at(file, at + 1) {
            return Err(Refusal::EndOutOfRange);
        }
        if basins <= word_at(file, at + 3) {
            return Err(Refusal::EndOutOfRange);
        }
        at += size;
        reaches += 1;
    }
}

// The counts of a file, which is judged to its end. Refuses: 5, 4, 1, 2, 3, 6. Writes nothing.
pub fn check_network(file: &[u8]) -> Result<Counts, Refusal>
    ensures { result ≡ read_answer (read_file file.now) }
{
    take_record(file, 0, &HEAD_DUE)?;
    let basins = word_at(file, 1);
    if basins == 0 {
        return Err(Refusal::BasinCount);
    }
    if MAX_BASINS < basins as usize {
        return Err(Refusal::BasinCount);
    }
    check_reaches(file, basins)
}

// The first n reaches of a file go to the rows.
pub fn fill_rows(file: &[u8], n: usize, kinds: &mut [u8], a: &mut [u16], b: &mut [u16])
    requires { Fills file.now n kinds.old a.old b.old }
    ensures { RowsFilled (reaches_at n (drop 3 file.now)) kinds.old a.old b.old
        kinds.new a.new b.new }
{
    let mut at: usize = 3;
    for i in 0..n {
        let kind = file[at];
        let front = record_front(file, at, kind);
        kinds[i] = front.state;
        a[i] = word_at(file, at + 1);
        b[i] = word_at(file, at + 3);
        at += front.size;
    }
}
