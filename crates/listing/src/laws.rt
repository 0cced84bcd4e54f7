// The whole listing over the running calls. Their proofs cite only what the start and the filling promise.
ghost use Rattle.std.specs.Prelude.{◌≤◌};
ghost use Rattle.network.specs.Networks.{max_reaches};
ghost use Rattle.tables.specs.Rows.{room_of};
ghost use Rattle.lines.specs.Listings.{listing};
ghost use Rattle.lines.specs.Puts.{Put};

use network::MAX_REACHES;

// Puts the first bytes of a file's listing into the buffer, as many as it holds, with lent rows of room enough.
fn list_in(file: &[u8], kinds: &mut [u8], a: &mut [u16], b: &mut [u16], out: &mut [u8]) -> usize
    requires { max_reaches ≤ room_of kinds.old a.old b.old }
    ensures { Put (listing file.now) out.old out.new result }
{
    let started = listing_state::start(file, kinds, a, b);
    let m = started.reaches;
    let lister = started.lister;
    let filled = crate::fill(lister, &kinds[..m], &a[..m], &b[..m], out);
    filled.count
}

// The same, with rows of its own.
pub fn list(file: &[u8], out: &mut [u8]) -> usize
    ensures { Put (listing file.now) out.old out.new result }
{
    let mut kinds = [0u8; MAX_REACHES];
    let mut a = [0u16; MAX_REACHES];
    let mut b = [0u16; MAX_REACHES];
    list_in(file, &mut kinds, &mut a, &mut b, out)
}
