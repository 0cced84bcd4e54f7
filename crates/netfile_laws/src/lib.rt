// The two laws of the network file over the running calls. Their proofs cite only what the reader and the writer promise.

#![tactic(auto)]

ghost use Rattle.tables.specs.Rows.{net_of};
ghost use Rattle.netfile_laws.specs.Laws.{NetworkWriteRead, NetworkReadWrite};

use network::{Counts, Refusal};

// A network that is written is read again as it was.
pub fn write_then_read_network(
    basins: u16,
    kinds: &[u8],
    a: &[u16],
    b: &[u16],
    out: &mut [u8],
    kinds2: &mut [u8],
    a2: &mut [u16],
    b2: &mut [u16],
) -> Result<Counts, Refusal>
    ensures { NetworkWriteRead (net_of basins kinds.now a.now b.now) out.old
        kinds2.old a2.old b2.old
        result out.new kinds2.new a2.new b2.new }
{
    let n = netfile_rows::write_network(basins, kinds, a, b, out)?;
    netfile_rows::read_network(&out[..n], kinds2, a2, b2)
}

// A file that is read is written again byte for byte.
pub fn read_then_write_network(
    file: &[u8],
    kinds: &mut [u8],
    a: &mut [u16],
    b: &mut [u16],
    out: &mut [u8],
) -> Result<usize, Refusal>
    ensures { NetworkReadWrite file.now kinds.old a.old b.old out.old
        result kinds.new a.new b.new out.new }
{
    let Counts { basins, reaches } = netfile_rows::read_network(file, kinds, a, b)?;
    netfile_rows::write_network(basins, &kinds[..reaches], &a[..reaches], &b[..reaches], out)
}
