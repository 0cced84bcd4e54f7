// Document 02, item 6, over the running calls: what the longest of the fewest counts says of a setting that is checked. The proof cites only what the calls
// promise.

#![tactic(auto)]

ghost use Rattle.tables.specs.Rows.{net_of};
ghost use Rattle.diameter_laws.specs.Diameters.{LongestOfChecked};

use diameter::diameter_rows;
use network::Refusal;

// What the two calls answered.
#[derive(Clone, Copy)]
pub struct Measured {
    pub check: Result<bool, Refusal>,
    pub longest: Result<u16, Refusal>,
}

// Checks a setting of a network and asks how far the water goes under it: what the two calls promise, that a number is given exactly if the setting is a plan, and
// what holds of the number.
pub fn longest_of_checked(
    basins: u16,
    kinds: &[u8],
    a: &[u16],
    b: &[u16],
    setting: &[u8],
) -> Measured
    ensures { LongestOfChecked (net_of basins kinds.now a.now b.now) setting.now result.check result.longest }
{
    let check = planner_rows::check(basins, kinds, a, b, setting);
    let longest = diameter_rows(basins, kinds, a, b, setting);
    Measured { check, longest }
}
