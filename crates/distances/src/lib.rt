// How many reaches water crosses (document 02, item 6): the fewest from basin to basin, and the longest of these under a setting.
// What they are is in specs/; the laws about those definitions are in proofs/. The functions stand in the crates above.

#![tactic(auto)]

use network::Refusal;

// What is noted for a basin that is not reached: a 16-bit number and no Option, since the notes are lent rows, and their memory is fixed and small.
pub const UNREACHED: u16 = 65535;
