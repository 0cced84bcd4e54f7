// What the calls over a table lent as rows refuse by number only, in the order of document 01: 1, 2, 3, 8, 7, each as far as the call can give it.
// These functions write nothing; a table that gets none of these is accepted.

#![tactic(auto)]

ghost use Rattle.std.specs.Prelude.{◌≡◌};
ghost use Rattle.network.specs.Networks.{table_fault};
ghost use Rattle.network.specs.Settings.{setting_fault};
ghost use Rattle.network.specs.Replies.{first_of, check_fault, room_fault};
ghost use Rattle.tables.specs.Rows.{net_of};
ghost use Rattle.tables.specs.Answers.{table_answer};

use marks::MARK_BYTES;
use network::Refusal;

// Refusal 8, by the setting.
fn setting_check(kinds: &[u8], a: &[u16], b: &[u16], setting: &[u8]) -> Result<(), Refusal>
    ensures { result ≡ table_answer (setting_fault (net_of 0 kinds.now a.now b.now) setting.now) }
{
    let m = tables::row_count(kinds, a, b);
    if tables::fits(&kinds[..m], setting) {
        Ok(())
    } else {
        Err(Refusal::BadSetting)
    }
}

// Refusal 7, by the lengths of the plan buffer and of the marks buffer.
fn room_check(kinds: &[u8], a: &[u16], b: &[u16], plan: usize, marks: usize) -> Result<(), Refusal>
    ensures { result ≡ table_answer (room_fault (net_of 0 kinds.now a.now b.now) plan marks) }
{
    let m = tables::row_count(kinds, a, b);
    if plan < tables::count_gates(&kinds[..m]) {
        return Err(Refusal::ShortBuffer);
    }
    if marks < MARK_BYTES {
        return Err(Refusal::ShortBuffer);
    }
    Ok(())
}

// Of the check of a setting, and of the making of a walker: 1, 2, 3, 8.
pub fn check_refusal(
    basins: u16,
    kinds: &[u8],
    a: &[u16],
    b: &[u16],
    setting: &[u8],
) -> Result<(), Refusal>
    ensures { result ≡ table_answer (check_fault (net_of basins kinds.now a.now b.now) setting.now) }
{
    let table = tables::table_check(basins, kinds, a, b);
    let fit = setting_check(kinds, a, b, setting);
    table.and(fit)
}

// Of the first plan: 1, 2, 3, 7.
pub fn first_refusal(
    basins: u16,
    kinds: &[u8],
    a: &[u16],
    b: &[u16],
    plan: usize,
    marks: usize,
) -> Result<(), Refusal>
    ensures { result ≡ table_answer (first_of (table_fault (net_of basins kinds.now a.now b.now))
        (room_fault (net_of basins kinds.now a.now b.now) plan marks)) }
{
    tables::table_check(basins, kinds, a, b)?;
    room_check(kinds, a, b, plan, marks)
}

// Of the next plan: 1, 2, 3, 8, 7.
pub fn next_refusal(
    basins: u16,
    kinds: &[u8],
    a: &[u16],
    b: &[u16],
    setting: &[u8],
    plan: usize,
    marks: usize,
) -> Result<(), Refusal>
    ensures { result ≡ table_answer (first_of (check_fault (net_of basins kinds.now a.now b.now) setting.now)
        (room_fault (net_of basins kinds.now a.now b.now) plan marks)) }
{
    check_refusal(basins, kinds, a, b, setting)?;
    room_check(kinds, a, b, plan, marks)
}
