// The laws of the sheets over the running calls. Their proofs cite only what the calls promise.

#![tactic(auto)]

ghost use Rattle.tables.specs.Rows.{net_of};
ghost use Rattle.sheet_laws.specs.Laws.{SheetWriteRead, SheetReadWrite, SheetReadCheck, ReplyWriteRead};

use network::Refusal;

// A plan that is written is read again as it was.
pub fn write_then_read_sheet(
    basins: u16,
    kinds: &[u8],
    a: &[u16],
    b: &[u16],
    setting: &[u8],
    out: &mut [u8],
    again: &mut [u8],
) -> Result<usize, Refusal>
    ensures { SheetWriteRead (net_of basins kinds.now a.now b.now) setting.now out.old again.old
        result out.new again.new }
{
    let n = sheet_rows::write_sheet(basins, kinds, a, b, setting, out)?;
    sheet_rows::read_sheet(basins, kinds, a, b, &out[..n], again)
}

// A plan sheet that is read is written again byte for byte.
pub fn read_then_write_sheet(
    basins: u16,
    kinds: &[u8],
    a: &[u16],
    b: &[u16],
    sheet: &[u8],
    setting: &mut [u8],
    out: &mut [u8],
) -> Result<usize, Refusal>
    ensures { SheetReadWrite (net_of basins kinds.now a.now b.now) sheet.now setting.old out.old
        result setting.new out.new }
{
    let n = sheet_rows::read_sheet(basins, kinds, a, b, sheet, setting)?;
    sheet_rows::write_sheet(basins, kinds, a, b, &setting[..n], out)
}

// A setting that is read is a plan: the check says yes.
pub fn read_then_check(
    basins: u16,
    kinds: &[u8],
    a: &[u16],
    b: &[u16],
    sheet: &[u8],
    setting: &mut [u8],
) -> Result<bool, Refusal>
    ensures { SheetReadCheck (net_of basins kinds.now a.now b.now) sheet.now setting.old
        result setting.new }
{
    let n = sheet_rows::read_sheet(basins, kinds, a, b, sheet, setting)?;
    planner_rows::check(basins, kinds, a, b, &setting[..n])
}

// The reply of a network with a plan is read again as its first plan; a finding sheet is written only.
pub fn reply_then_read(
    basins: u16,
    kinds: &[u8],
    a: &[u16],
    b: &[u16],
    out: &mut [u8],
    setting: &mut [u8],
) -> Result<usize, Refusal>
    ensures { ReplyWriteRead (net_of basins kinds.now a.now b.now) out.old setting.old
        result out.new setting.new }
{
    let n = sheet_rows::write_reply(basins, kinds, a, b, out)?;
    sheet_rows::read_sheet(basins, kinds, a, b, &out[..n], setting)
}
