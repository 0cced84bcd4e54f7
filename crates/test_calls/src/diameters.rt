// The call that says how far the water goes.
use crate::bounds::{front, rest, word_at};
use crate::plans::number;
use crate::show;
use crate::show::Out;
use std::io;
use std::io::Write;

// Prints the longest of the fewest counts under a setting. This stands in the data where the number that says how often to go on has it; its length is that of
// the first buffer.
pub fn longest(
    w: &mut impl Write,
    o: Out,
    c: &[u8],
    kinds: &[u8],
    a: &[u16],
    b: &[u16],
    s: &[u8],
) -> io::Result<Out> {
    let setting = front(rest(s, word_at(c, 15) as usize), word_at(c, 9) as usize);
    match diameter::diameter_rows(word_at(c, 1), kinds, a, b, setting) {
        Err(r) => show::reply(w, o, number(r)),
        Ok(count) => show::reply_with(w, o, 0, count as u64),
    }
}
