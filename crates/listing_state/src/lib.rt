// The lister's state: the line that is being printed and the plan in hand. The file is read and the first plan found here;
// what is still to be printed in a state is `pending_of`. No function has a `requires`.

#![tactic(auto)]

ghost use Rattle.network.specs.Replies.{refusal_number};
ghost use Rattle.listing_state.specs.Pending.{Starting};
ghost use Rattle.listing_state.specs.Parts.{FirstLine, RefusalLine};

use lines::{Due, due_of, due_refused};
use marks::MARK_BYTES;
use network::{Counts, MAX_REACHES, Refusal};
use tables::least;

// The most bytes of a file that are read, and the most plans that are printed.
pub const MAX_BYTES: usize = 8000;

pub const MAX_PLANS: usize = 1000;

// A state of the lister: the basin count, the line that is being printed, how many of its bytes are printed, and the plan in hand.
#[derive(Clone, Copy)]
pub struct Lister {
    pub basins: u16,
    pub due: Due,
    pub at: usize,
    pub setting: [u8; MAX_REACHES],
}

// The same without the plan in hand, which is lent beside it while lines are printed.
#[derive(Clone, Copy)]
pub struct Line {
    pub basins: u16,
    pub due: Due,
    pub at: usize,
}

// The state in which nothing is printed, and the number of reaches in the rows.
#[derive(Clone, Copy)]
pub struct Started {
    pub lister: Lister,
    pub reaches: usize,
}

// The number of bytes in the buffer, and the state after they are printed.
#[derive(Clone, Copy)]
pub struct Filled {
    pub lister: Lister,
    pub count: usize,
}

// A setting of zeros.
fn zeros() -> [u8; MAX_REACHES] {
    [0u8; MAX_REACHES]
}

// The state before the first line of a network; the bytes of the setting are lent by value.
fn first_line(basins: u16, kinds: &[u8], a: &[u16], b: &[u16], setting: [u8; MAX_REACHES]) -> Lister
    ensures { FirstLine basins kinds.now a.now b.now result }
{
    let mut plan = setting;
    let mut marks = [0u8; MARK_BYTES];
    let answer = planner_rows::first_plan(basins, kinds, a, b, &mut plan, &mut marks);
    let due = due_of(answer, MAX_PLANS);
    Lister {
        basins,
        due,
        at: 0,
        setting: plan,
    }
}

// The state before the line of a file that is refused.
fn refusal_line(r: Refusal) -> Lister
    ensures { RefusalLine (refusal_number r) result }
{
    let due = due_refused(r);
    let setting = zeros();
    Lister {
        basins: 0,
        due,
        at: 0,
        setting,
    }
}

// Reads the first bytes of a file into the rows, and finds the first line.
pub fn start(file: &[u8], kinds: &mut [u8], a: &mut [u16], b: &mut [u16]) -> Started
    ensures { Starting file.now kinds.old a.old b.old result kinds.new a.new
        b.new }
{
    let n = least(file.len(), MAX_BYTES);
    match netfile_rows::read_network(&file[..n], kinds, a, b) {
        Err(r) => {
            let lister = refusal_line(r);
            Started { lister, reaches: 0 }
        }
        Ok(Counts { basins, reaches }) => {
            let lister = first_line(
                basins,
                &kinds[..reaches],
                &a[..reaches],
                &b[..reaches],
                zeros(),
            );
            Started { lister, reaches }
        }
    }
}
