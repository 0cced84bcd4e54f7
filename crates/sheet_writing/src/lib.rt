// Plan sheets and finding sheets written into a buffer. What is a plan is not asked here.
// The functions with a `requires` are for the crates `sheet_rows` and `sheet_plans`, which have checked it.

#![tactic(auto)]

ghost use Rattle.std.specs.Prelude.{◌≡◌, ◌+◌, ◌*◌, ◌<◌, length};
ghost use Rattle.std.proofs.lemmas.List.Edits.{sets};
ghost use Rattle.network.specs.Tables.{table_of};
ghost use Rattle.network.specs.Marks.{mark_bytes};
ghost use Rattle.file_records.specs.Puts.{WroteWhole};
ghost use Rattle.sheet_format.specs.Sheets.{gate_kind, gate_record, sheet_records, plan_sheet, shut_in_sheet, lone_sheet};
ghost use Rattle.sheet_format.specs.Rows.{gates_row, Records, Fitting, Roomy, table_sheet, first_bytes_sheet};

use file_records::{END, put_bytes, put_word};
use network::Refusal;
use sheet_format::{AS_DRAWN, LONE, PLAN, SHUT_IN, TURNED};

// The kind byte of a gated reach, by its byte in the setting.
fn gate_kind(byte: u8) -> u8
    ensures { result ≡ gate_kind byte }
{
    if byte == 0 { AS_DRAWN } else { TURNED }
}

// The record of a gated reach.
fn put_gate(out: &mut [u8], at: usize, reach: u16, byte: u8)
    requires { at + 2 < length out.old }
    ensures { out.new ≡ sets out.old at (gate_record reach byte) }
{
    out[at] = gate_kind(byte);
    put_word(out, at + 1, reach);
}

// The records of a plan sheet, and the end, go to the first bytes of the part of the buffer after the head.
fn put_records(kinds: &[u8], setting: &[u8], out: &mut [u8])
    requires records { Records kinds.now setting.now }
    requires setting_in_bounds { 3 * length setting.now < length out.old }
    ensures { out.new ≡ sets out.old 0 (sheet_records (gates_row 0 kinds.now) setting.now) }
{
    let mut i: usize = 0;
    for (k, &byte) in setting.iter().enumerate() {
        i = sheet_format::next_gate(kinds, i);
        put_gate(out, 3 * k, i as u16, byte);
        i += 1;
    }
    out[3 * setting.len()] = END;
}

// The sheet of a setting that fits goes to the first bytes of the buffer; 7. The records go into the part of the buffer after the head.
fn write_sheet(kinds: &[u8], setting: &[u8], out: &mut [u8]) -> Result<usize, Refusal>
    requires { Records kinds.now setting.now }
    ensures { WroteWhole (plan_sheet (gates_row 0 kinds.now) setting.now) out.old result out.new }
{
    let count = setting.len();
    let size = 3 * count + 4;
    if out.len() < size {
        return Err(Refusal::ShortBuffer);
    }
    out[0] = PLAN;
    put_word(out, 1, count as u16);
    put_records(kinds, setting, &mut out[3..]);
    Ok(size)
}

// The same over a table, which is as long as the shortest of its rows.
pub fn write_fitting(
    kinds: &[u8],
    a: &[u16],
    b: &[u16],
    setting: &[u8],
    out: &mut [u8],
) -> Result<usize, Refusal>
    requires { Fitting (table_of kinds.now a.now b.now) setting.now }
    ensures { WroteWhole (table_sheet (table_of kinds.now a.now b.now) setting.now) out.old
        result out.new }
{
    let m = tables::row_count(kinds, a, b);
    write_sheet(&kinds[..m], setting, out)
}

// The sheet of the plan that stands in the first bytes of its buffer, one for each gated reach.
pub fn write_first(
    kinds: &[u8],
    a: &[u16],
    b: &[u16],
    plan: &[u8],
    out: &mut [u8],
) -> Result<usize, Refusal>
    requires { Roomy (table_of kinds.now a.now b.now) plan.now }
    ensures { WroteWhole (first_bytes_sheet (table_of kinds.now a.now b.now) plan.now) out.old
        result out.new }
{
    let m = tables::row_count(kinds, a, b);
    let g = tables::count_gates(&kinds[..m]);
    write_fitting(kinds, a, b, &plan[..g], out)
}

// The sheet of a shut-in finding goes to the first bytes of the buffer; 7.
pub fn write_shut_in(marks: &[u8], out: &mut [u8]) -> Result<usize, Refusal>
    requires { length marks.now ≡ mark_bytes }
    ensures { WroteWhole (shut_in_sheet marks.now) out.old result out.new }
{
    let size = marks.len() + 2;
    if out.len() < size {
        return Err(Refusal::ShortBuffer);
    }
    out[0] = SHUT_IN;
    put_bytes(out, 1, marks);
    out[size - 1] = END;
    Ok(size)
}

// The sheet of a lone reach goes to the first bytes of the buffer; 7.
pub fn write_lone(reach: u16, marks: &[u8], out: &mut [u8]) -> Result<usize, Refusal>
    requires { length marks.now ≡ mark_bytes }
    ensures { WroteWhole (lone_sheet reach marks.now) out.old result out.new }
{
    let size = marks.len() + 4;
    if out.len() < size {
        return Err(Refusal::ShortBuffer);
    }
    out[0] = LONE;
    put_word(out, 1, reach);
    put_bytes(out, 3, marks);
    out[size - 1] = END;
    Ok(size)
}
