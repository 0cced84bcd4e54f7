// The lister: prints the plans of the network file on standard input, by document 01.
// What it prints is made in the crate `listing`; here are only the reading and the writing. What `run` writes is the listing of what it reads, where the
// reader and the writer say what they read and write.

#![tactic(auto)]

ghost use Rattle.std.specs.Prelude.{◌≡◌, ◌<◌, ◌≤◌, length, take, IfOk, OnOk, IfSome};
ghost use Rattle.std.specs.Io.KnownBytes.{Appends};
ghost use Rattle.network.specs.Networks.{max_reaches};
ghost use Rattle.tables.specs.Rows.{room_of};
ghost use Rattle.lines.specs.Listings.{listing};
ghost use Rattle.listing_state.specs.Pending.{pending};

use listing_state::{Lister, MAX_BYTES};
use network::MAX_REACHES;
use std::io;
use std::io::{Read, Write};

// The bytes of one call that writes.
const CHUNK: usize = 65536;

// Reads the first bytes, as many as the buffer holds or there are, and answers how many.
fn read_full<R: Read>(r: &mut R, buf: &mut [u8]) -> io::Result<usize>
    ensures within { IfOk result (λ n. n ≤ length buf.new) }
    ensures bytes { IfOk result (λ n. IfSome (R.remaining r.old) (λ file. take n buf.new ≡ take (length buf.old) file)) }
{
    let mut done = 0;
    while done < buf.len() {
        let n = r.read(&mut buf[done..])?;
        if n == 0 {
            break;
        }
        done += n;
    }
    Ok(done)
}

// Prints what is to be printed, a buffer at a time, and stops early where the output takes no more, which is an error.
fn print<W: Write>(
    lister: Lister,
    kinds: &[u8],
    a: &[u16],
    b: &[u16],
    out: &mut [u8],
    w: &mut W,
) -> io::Result<()>
    ensures { OnOk result (0 < length out.old → Appends (W.contents w.old) (W.contents w.new) (pending lister kinds.now a.now b.now)) }
{
    let mut state = lister;
    loop {
        let filled = listing::fill(state, kinds, a, b, out);
        let n = filled.count;
        if n == 0 {
            return Ok(());
        }
        w.write_all(&out[..n])?;
        state = filled.lister;
    }
}

// Prints the listing of a file, by rows with room for a network and a buffer that is not empty.
fn list<W: Write>(
    file: &[u8],
    kinds: &mut [u8],
    a: &mut [u16],
    b: &mut [u16],
    out: &mut [u8],
    w: &mut W,
) -> io::Result<()>
    ensures { OnOk result (max_reaches ≤ room_of kinds.old a.old b.old → 0 < length out.old → Appends (W.contents w.old) (W.contents w.new) (listing file.now)) }
{
    let started = listing_state::start(file, kinds, a, b);
    let m = started.reaches;
    let lister = started.lister;
    print(lister, &kinds[..m], &a[..m], &b[..m], out, w)
}

// Reads a file and prints its listing.
pub fn run<R: Read, W: Write>(r: &mut R, w: &mut W) -> io::Result<()>
    ensures { OnOk result (IfSome (R.remaining r.old) (λ file. Appends (W.contents w.old) (W.contents w.new) (listing file))) }
{
    let mut file = [0u8; MAX_BYTES];
    let n = read_full(r, &mut file)?;
    let mut kinds = [0u8; MAX_REACHES];
    let mut a = [0u16; MAX_REACHES];
    let mut b = [0u16; MAX_REACHES];
    let mut out = [0u8; CHUNK];
    list(&file[..n], &mut kinds, &mut a, &mut b, &mut out, w)
}

fn main(rt: HostRuntime) -> io::Result<()> {
    run(&mut rt.stdin(), &mut rt.stdout())
}
