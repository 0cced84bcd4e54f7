// The order of two plan sheets of one network, and the part of the earlier sheet from where they part (document 02, item 5). What they are is in specs/;
// the laws about those definitions are in proofs/. The calls that read the sheets stand in the crate `comparison`.

#![tactic(auto)]

ghost use Rattle.std.specs.Prelude.{◌≡◌};
ghost use Rattle.sheet_order.specs.Orders.{setting_order};
ghost use Rattle.sheet_order.specs.Parts.{common_prefix, PartFrom};

use network::Refusal;
use std::cmp::Ordering;

// The reply: which of two sheets is earlier (`Less` the first, `Greater` the second), that they are equal, or why they are refused; and a part of one of
// the two sheets that were lent.
#[derive(Clone, Copy)]
pub struct Parting<'a> {
    pub order: Result<Ordering, Refusal>,
    pub part: &'a [u8],
}

// How many bytes two sheets have in common at their start.
fn common_prefix(first: &[u8], second: &[u8]) -> usize
    ensures { result ≡ common_prefix first.now second.now }
{
    first.iter().zip(second).take_while(|(x, y)| x == y).count()
}

// The order of two sheets by their bytes: the first byte that differs decides, and where one is the start of the other they are equal.
pub fn order_of(first: &[u8], second: &[u8]) -> Ordering
    ensures { result ≡ setting_order first.now second.now }
{
    let at = common_prefix(first, second);
    let left = first.len() - at;
    if left == 0 {
        return Ordering::Equal;
    }
    if second.len() <= at {
        return Ordering::Equal;
    }
    if first[at] < second[at] {
        Ordering::Less
    } else {
        Ordering::Greater
    }
}

// The part of the sheet that the order names, from the first byte in which the two differ. Of sheets that `comparison::order_rows` has put in this order
// that is the first record in which they differ.
pub fn part<'a>(order: Result<Ordering, Refusal>, first: &'a [u8], second: &'a [u8]) -> &'a [u8]
    ensures { PartFrom (common_prefix first.now second.now) order first.entry second.entry result }
{
    let at = common_prefix(first, second);
    match order {
        Ok(Ordering::Less) => &first[at..],
        Ok(Ordering::Greater) => &second[at..],
        Ok(Ordering::Equal) => {
            let end = first.len();
            &first[end..]
        }
        Err(_) => &first[..0],
    }
}
