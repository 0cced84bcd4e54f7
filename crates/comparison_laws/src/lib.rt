// The laws of two plan sheets laid side by side, over the running calls on rows. Their proofs cite only what the calls promise.

#![tactic(auto)]

ghost use Rattle.tables.specs.Rows.{net_of};
ghost use Rattle.comparison_laws.specs.Laws.{BothWays, PartOfTwo, PartOfExchanged};

use network::Refusal;
use sheet_order::part;
use std::cmp::Ordering;

// The orders of two sheets as they were lent, and exchanged.
#[derive(Clone, Copy)]
pub struct Orders {
    pub forth: Result<Ordering, Refusal>,
    pub back: Result<Ordering, Refusal>,
}

// Exchanging two sheets exchanges their order, and they are equal exactly if they are the same bytes.
pub fn both_ways(
    basins: u16,
    kinds: &[u8],
    a: &[u16],
    b: &[u16],
    first: &[u8],
    second: &[u8],
) -> Orders
    ensures { BothWays (net_of basins kinds.now a.now b.now) first.now second.now result }
{
    let forth = comparison::order_rows(basins, kinds, a, b, first, second);
    let back = comparison::order_rows(basins, kinds, a, b, second, first);
    Orders { forth, back }
}

// The order, and then the part: what is handed back is the earlier sheet from the first differing record on.
pub fn part_of_two<'a>(
    basins: u16,
    kinds: &[u8],
    a: &[u16],
    b: &[u16],
    first: &'a [u8],
    second: &'a [u8],
) -> &'a [u8]
    ensures { PartOfTwo (net_of basins kinds.now a.now b.now) first.entry second.entry result }
{
    let order = comparison::order_rows(basins, kinds, a, b, first, second);
    part(order, first, second)
}

// The same of the two sheets exchanged: where they differ, the same part.
pub fn part_of_exchanged<'a>(
    basins: u16,
    kinds: &[u8],
    a: &[u16],
    b: &[u16],
    first: &'a [u8],
    second: &'a [u8],
) -> &'a [u8]
    ensures { PartOfExchanged (net_of basins kinds.now a.now b.now) first.entry second.entry result }
{
    let order = comparison::order_rows(basins, kinds, a, b, second, first);
    part(order, second, first)
}
