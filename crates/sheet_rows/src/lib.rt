// Plan sheets and finding sheets: their reader, their writer, and the writer of a network's reply. The reach table is lent as three rows of
// numbers, kinds, ends A and ends B, as the crate `tables` has them. What is a plan, and what a network gets, only the planner's promises say.
// `read_plan`, which has a `requires`, is for the crates above, which have checked it.

#![tactic(auto)]

ghost use Rattle.std.specs.Prelude.{◌≡◌, length};
ghost use Rattle.network.specs.Networks.{max_reaches};
ghost use Rattle.tables.specs.Rows.{net_of};
ghost use Rattle.sheet_format.specs.Readings.{sheet_says, read_sheet, sheet_with_room};
ghost use Rattle.sheet_format.specs.Answers.{Got, Held, SheetRead, SheetWritten, ReplyWritten};

use marks::MARK_BYTES;
use network::{MAX_REACHES, Refusal};

// The sheet of a plan goes to the first bytes of the buffer. Refuses: 1, 2, 3, 8, 7.
pub fn write_sheet(
    basins: u16,
    kinds: &[u8],
    a: &[u16],
    b: &[u16],
    setting: &[u8],
    out: &mut [u8],
) -> Result<usize, Refusal>
    ensures { SheetWritten (net_of basins kinds.now a.now b.now) setting.now out.old
        result out.new }
{
    if planner_rows::check(basins, kinds, a, b, setting)? {
        sheet_writing::write_fitting(kinds, a, b, setting, out)
    } else {
        Err(Refusal::BadSetting)
    }
}

// The network's first plan, or the finding that shows why there is none, goes to the first bytes of the buffer as a sheet. Refuses: 1, 2, 3, 7.
pub fn write_reply(
    basins: u16,
    kinds: &[u8],
    a: &[u16],
    b: &[u16],
    out: &mut [u8],
) -> Result<usize, Refusal>
    ensures { ReplyWritten (net_of basins kinds.now a.now b.now) out.old result out.new }
{
    let mut plan = [0u8; MAX_REACHES];
    let mut marks = [0u8; MARK_BYTES];
    sheet_plans::write_reply_in(basins, kinds, a, b, &mut plan, &mut marks, out)
}

// The plan that a sheet says goes to the first bytes of lent working memory; what stands behind it is free, and all of it on a refusal.
// Refuses: 1, 2, 3, 5, 4, 8, 6.
pub fn read_plan(
    basins: u16,
    kinds: &[u8],
    a: &[u16],
    b: &[u16],
    sheet: &[u8],
    held: &mut [u8],
) -> Result<usize, Refusal>
    requires { length held.old ≡ max_reaches }
    ensures { Held (read_sheet (net_of basins kinds.now a.now b.now) sheet.now)
        result held.new }
{
    tables::table_check(basins, kinds, a, b)?;
    let m = tables::row_count(kinds, a, b);
    let n = sheet_reading::read_records(&kinds[..m], sheet, held)?;
    sheet_plans::judge_plan(basins, kinds, a, b, &held[..n])
}

// The bytes go to the first bytes of the setting's buffer. Refuses: 7.
fn keep(bytes: &[u8], setting: &mut [u8]) -> Result<usize, Refusal>
    ensures { Got (sheet_with_room (length setting.old) (sheet_says bytes.now)) setting.old
        result setting.new }
{
    if setting.len() < bytes.len() {
        return Err(Refusal::ShortBuffer);
    }
    file_records::put_bytes(setting, 0, bytes);
    Ok(bytes.len())
}

// The reader, with lent working memory. What it leaves there is free.
fn read_sheet_in(
    basins: u16,
    kinds: &[u8],
    a: &[u16],
    b: &[u16],
    sheet: &[u8],
    held: &mut [u8],
    setting: &mut [u8],
) -> Result<usize, Refusal>
    requires { length held.old ≡ max_reaches }
    ensures { SheetRead (net_of basins kinds.now a.now b.now) sheet.now setting.old
        result setting.new }
{
    let n = read_plan(basins, kinds, a, b, sheet, held)?;
    keep(&held[..n], setting)
}

// The setting of a plan sheet goes to the first bytes of the buffer. Refuses: 1, 2, 3, 5, 4, 8, 6, 7. The whole sheet is judged before anything is written.
pub fn read_sheet(
    basins: u16,
    kinds: &[u8],
    a: &[u16],
    b: &[u16],
    sheet: &[u8],
    setting: &mut [u8],
) -> Result<usize, Refusal>
    ensures { SheetRead (net_of basins kinds.now a.now b.now) sheet.now setting.old
        result setting.new }
{
    let mut held = [0u8; MAX_REACHES];
    read_sheet_in(basins, kinds, a, b, sheet, &mut held, setting)
}
