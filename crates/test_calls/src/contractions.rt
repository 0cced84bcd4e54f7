// The call that contracts a network.
use crate::bounds::{OLD, OLD_WORD, within, within_words};
use crate::files::{Lengths, Reading};
use crate::table_rows::ROOM;

// The answer, and the new rows afterwards.
pub fn contracted(basins: u16, kinds: &[u8], a: &[u16], b: &[u16], n: Lengths) -> Reading {
    let mut kinds2 = [OLD; ROOM];
    let mut a2 = [OLD_WORD; ROOM];
    let mut b2 = [OLD_WORD; ROOM];
    let k = within(&kinds2, n.kinds);
    let x = within_words(&a2, n.a);
    let y = within_words(&b2, n.b);
    let answer = contraction::contract_rows(
        basins,
        kinds,
        a,
        b,
        &mut kinds2[..k],
        &mut a2[..x],
        &mut b2[..y],
    );
    Reading {
        answer,
        kinds: kinds2,
        a: a2,
        b: b2,
    }
}
