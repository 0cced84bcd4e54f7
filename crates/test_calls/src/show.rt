// What is printed of a call, and the sum of all that it replies and leaves.
use crate::bounds::sum;
use std::io;
use std::io::Write;

// How much is printed: of a single call all, but for long buffers; of many calls the numbers, and the short buffers of those that are not refused;
// or only how many calls there were.
pub const FULL: u8 = 0;

pub const BRIEF: u8 = 1;

pub const QUIET: u8 = 2;

// How much is printed; the last number, and how often it came in a row; the sum.
#[derive(Clone, Copy)]
pub struct Out {
    pub mode: u8,
    pub number: u8,
    pub run: usize,
    pub sum: u64,
}

// The answers of the check of a setting that are no refusals.
pub const YES: u8 = 16;

pub const NO: u8 = 17;

// The buffers that are printed have no more bytes than this, and in brief than this.
const LONG: usize = 512;

const SHORT: usize = 16;

fn added(o: Out, x: u64) -> Out {
    Out {
        mode: o.mode,
        number: o.number,
        run: o.run,
        sum: (o.sum % 16777213 * 257 + x % 65536 + 1) % 16777213,
    }
}

// Whether a buffer of n entries is printed; opens its bracket.
fn opens(w: &mut impl Write, o: Out, n: usize) -> io::Result<bool> {
    if o.mode == QUIET || o.mode == BRIEF && o.number != 0 {
        return Ok(false);
    }
    let shown = n <= if o.mode == FULL { LONG } else { SHORT };
    if shown {
        write!(w, "(")?;
    }
    Ok(shown)
}

fn close(w: &mut impl Write, shown: bool) -> io::Result<()> {
    if shown {
        write!(w, ")")?;
    }
    Ok(())
}

// One entry: a digit, a dot where it is untouched, else two or four hexadecimal digits.
fn show_entry(w: &mut impl Write, x: u64, old: u64) -> io::Result<()> {
    if x < 10 {
        write!(w, "{x}")
    } else if x == old {
        write!(w, ".")
    } else {
        write!(w, "<{x:02x}>")
    }
}

fn byte(w: &mut impl Write, o: Out, shown: bool, x: u8) -> io::Result<Out> {
    if shown {
        show_entry(w, x as u64, 170)?;
    }
    Ok(added(o, x as u64))
}

fn word(w: &mut impl Write, o: Out, shown: bool, x: u16) -> io::Result<Out> {
    if shown {
        show_entry(w, x as u64, 43690)?;
    }
    Ok(added(o, x as u64))
}

// A buffer after a call.
pub fn bytes(w: &mut impl Write, o: Out, s: &[u8]) -> io::Result<Out> {
    let shown = opens(w, o, s.len())?;
    let mut o = o;
    for &x in s {
        o = byte(w, o, shown, x)?;
    }
    close(w, shown)?;
    Ok(o)
}

pub fn words(w: &mut impl Write, o: Out, s: &[u16]) -> io::Result<Out> {
    let shown = opens(w, o, s.len())?;
    let mut o = o;
    for &x in s {
        o = word(w, o, shown, x)?;
    }
    close(w, shown)?;
    Ok(o)
}

// How often the last number came, if it came again.
fn end_run(w: &mut impl Write, run: usize) -> io::Result<()> {
    if run > 1 {
        write!(w, "x{run}")?;
    }
    Ok(())
}

fn show_number(w: &mut impl Write, number: u8) -> io::Result<()> {
    match number {
        YES => write!(w, " y"),
        NO => write!(w, " n"),
        _ => write!(w, " {number:x}"),
    }
}

// The number of a reply; one that comes again, with nothing else to print, is only counted.
pub fn reply(w: &mut impl Write, o: Out, number: u8) -> io::Result<Out> {
    let mut o = added(o, number as u64);
    if o.mode == QUIET || number == o.number && number != 0 && number != 9 && number != 10 {
        o.number = number;
        o.run = sum(o.run, 1);
        return Ok(o);
    }
    end_run(w, o.run)?;
    show_number(w, number)?;
    o.number = number;
    o.run = 1;
    Ok(o)
}

// A number that goes with the reply, if that is no refusal.
pub fn value(w: &mut impl Write, o: Out, x: u64) -> io::Result<Out> {
    if o.mode != QUIET && (o.number == 0 || o.number == 9 || o.number == 10) {
        write!(w, ",{x}")?;
    }
    Ok(added(o, x))
}

// The number of a reply, and one that goes with it.
pub fn reply_with(w: &mut impl Write, o: Out, number: u8, x: u64) -> io::Result<Out> {
    let o = reply(w, o, number)?;
    value(w, o, x)
}

// The end of a line.
pub fn end(w: &mut impl Write, o: Out) -> io::Result<()> {
    end_run(w, o.run)?;
    let sum = o.sum;
    writeln!(w, " #{sum:06x}")
}
