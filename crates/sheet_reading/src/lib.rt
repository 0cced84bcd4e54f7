// Plan sheets read: head, records and end, for the reaches of a row of kinds. What is a plan is not asked here.
// The functions with a `requires` are for the crate `sheet_rows`, which has checked it.

#![tactic(auto)]

ghost use Rattle.std.specs.Prelude.{◌≡◌, ◌≤◌, length, drop};
ghost use Rattle.file_records.specs.Records.{take_record, taken_answer};
ghost use Rattle.sheet_format.specs.Readings.{gate_due, byte_in, read_gates, read_records};
ghost use Rattle.sheet_format.specs.Rows.{gates_row};
ghost use Rattle.sheet_format.specs.Answers.{Held};

use file_records::{END, take_record, word_at};
use network::Refusal;
use sheet_format::{AS_DRAWN, GATE_DUE, PLAN_HEAD_DUE};

// The record at a position after the head, that of a gated reach or the end.
fn gate_or_end(sheet: &[u8], at: usize) -> Result<u8, Refusal>
    ensures { result ≡ taken_answer (take_record gate_due (drop at sheet.now)) }
{
    take_record(sheet, at, &GATE_DUE)
}

// The byte of a gated reach in the setting, by its kind byte.
fn byte_in(kind: u8) -> u8
    ensures { result ≡ byte_in kind }
{
    if kind == AS_DRAWN { 0 } else { 1 }
}

// The records and the end, which start after the head. The setting that they say goes to the first bytes of lent working memory, which is free behind it.
fn read_gates(kinds: &[u8], sheet: &[u8], held: &mut [u8]) -> Result<usize, Refusal>
    requires in_bounds { 3 ≤ length sheet.now }
    requires kinds_in_bounds { length (gates_row 0 kinds.now) ≤ length held.old }
    ensures { Held (read_gates (gates_row 0 kinds.now) (drop 3 sheet.now)) result held.new }
{
    let mut at: usize = 3;
    let mut i: usize = 0;
    let mut k: usize = 0;
    loop {
        let kind = gate_or_end(sheet, at)?;
        i = sheet_format::next_gate(kinds, i);
        if kind == END {
            if i < kinds.len() {
                return Err(Refusal::BadSetting);
            }
            if at + 1 < sheet.len() {
                return Err(Refusal::TrailingBytes);
            }
            return Ok(k);
        }
        if kinds.len() <= i {
            return Err(Refusal::BadSetting);
        }
        if word_at(sheet, at + 1) as usize != i {
            return Err(Refusal::BadSetting);
        }
        held[k] = byte_in(kind);
        at += 3;
        i += 1;
        k += 1;
    }
}

// A whole sheet, its head, its records and its end, for the reaches of these kinds.
pub fn read_records(kinds: &[u8], sheet: &[u8], held: &mut [u8]) -> Result<usize, Refusal>
    requires { length (gates_row 0 kinds.now) ≤ length held.old }
    ensures { Held (read_records (gates_row 0 kinds.now) sheet.now) result held.new }
{
    take_record(sheet, 0, &PLAN_HEAD_DUE)?;
    if word_at(sheet, 1) as usize != tables::count_gates(kinds) {
        return Err(Refusal::BadSetting);
    }
    read_gates(kinds, sheet, held)
}
