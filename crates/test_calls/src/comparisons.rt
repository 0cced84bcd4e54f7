// The call that lays two plan sheets side by side.
use crate::bounds::{front, rest, word_at};
use crate::plans::number;
use crate::show;
use crate::show::Out;
use network::Refusal;
use std::cmp::Ordering;
use std::io;
use std::io::Write;

// Which sheet is earlier: 1 the first, 2 the second, 0 neither.
fn show_order(w: &mut impl Write, o: Out, order: Result<Ordering, Refusal>) -> io::Result<Out> {
    match order {
        Err(r) => show::reply(w, o, number(r)),
        Ok(Ordering::Equal) => show::reply_with(w, o, 0, 0),
        Ok(Ordering::Less) => show::reply_with(w, o, 0, 1),
        Ok(Ordering::Greater) => show::reply_with(w, o, 0, 2),
    }
}

// Prints the order of the two sheets, and the part of the earlier one. Both stand in the data: the first at its start, the second where the number that says
// how often to go on has it; their lengths are those of the two buffers.
pub fn compare(
    w: &mut impl Write,
    o: Out,
    c: &[u8],
    kinds: &[u8],
    a: &[u16],
    b: &[u16],
    s: &[u8],
) -> io::Result<Out> {
    let first = front(s, word_at(c, 9) as usize);
    let second = front(rest(s, word_at(c, 15) as usize), word_at(c, 11) as usize);
    let order = comparison::order_rows(word_at(c, 1), kinds, a, b, first, second);
    let o = show_order(w, o, order)?;
    show::bytes(w, o, sheet_order::part(order, first, second))
}
