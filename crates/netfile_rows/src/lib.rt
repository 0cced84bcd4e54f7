// The network file's reader and writer. The reach table is lent as three rows of numbers, kinds, ends A and ends B, as the crate `tables` has them.

#![tactic(auto)]

ghost use Rattle.tables.specs.Rows.{net_of};
ghost use Rattle.netfile_format.specs.Answers.{NetworkRead, NetworkWritten};

use file_records::END;
use netfile_format::HEAD;
use network::{Counts, Refusal};

// The network of a file, its reaches into the rows. Refuses: 5, 4, 1, 2, 3, 6, 7. The whole file is judged before anything is written.
pub fn read_network(
    file: &[u8],
    kinds: &mut [u8],
    a: &mut [u16],
    b: &mut [u16],
) -> Result<Counts, Refusal>
    ensures { NetworkRead file.now kinds.old a.old b.old
        result kinds.new a.new b.new }
{
    let counts = netfile_reading::check_network(file)?;
    if tables::row_count(kinds, a, b) < counts.reaches {
        return Err(Refusal::ShortBuffer);
    }
    netfile_reading::fill_rows(file, counts.reaches, kinds, a, b);
    Ok(counts)
}

// The file of a network goes to the first bytes of the buffer. Refuses: 1, 2, 3, 7.
pub fn write_network(
    basins: u16,
    kinds: &[u8],
    a: &[u16],
    b: &[u16],
    out: &mut [u8],
) -> Result<usize, Refusal>
    ensures { NetworkWritten (net_of basins kinds.now a.now b.now) out.old result out.new }
{
    tables::table_check(basins, kinds, a, b)?;
    let size = netfile_writing::file_length(kinds, a, b);
    if out.len() < size {
        return Err(Refusal::ShortBuffer);
    }
    out[0] = HEAD;
    file_records::put_word(out, 1, basins);
    netfile_writing::put_reaches(kinds, a, b, out);
    out[size - 1] = END;
    Ok(size)
}
