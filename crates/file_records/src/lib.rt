// File records, which network files and sheets share: the kinds and their body lengths, the record at a position, two-byte values, and bytes put into a buffer.
// The functions with a `requires` are for the crates above, which have checked it.

#![tactic(auto)]

ghost use Rattle.std.specs.Prelude.{◌≡◌, ◌+◌, ◌<◌, ◌≤◌, length, take, drop};
ghost use Rattle.std.proofs.lemmas.List.Edits.{sets};
ghost use Rattle.lists.specs.Lists.{elem};
ghost use Rattle.lists.specs.Words.{word_of};
ghost use Rattle.file_records.specs.Records.{body_of, two_bytes, take_record, taken_answer};

use network::Refusal;

// The kind of the end, the last record of each file and sheet.
pub const END: u8 = 9;

// The body length of each kind from 0 to 31; 255 for a kind that has none.
const BODY: [u8; 32] = [
    255, 2, 4, 4, 4, 5, 255, 255, 255, 0, 255, 255, 255, 255, 255, 255, 2, 2, 2, 255, 32, 34, 255,
    255, 255, 255, 255, 255, 255, 255, 255, 255,
];

// The body of a kind, by the table.
pub fn body_length(kind: u8) -> Option<u8>
    ensures { result ≡ body_of kind }
{
    if 31 < kind {
        return None;
    }
    let n = BODY[kind as usize];
    if n == 255 { None } else { Some(n) }
}

// Whether a kind is one of these.
fn one_of(kind: u8, kinds: &[u8]) -> bool
    ensures { result ≡ elem kind kinds.now }
{
    kinds.contains(&kind)
}

// The kind is one of those that may come at this place (5), and the whole body is there (4).
pub fn take_record(file: &[u8], at: usize, kinds: &[u8]) -> Result<u8, Refusal>
    ensures { result ≡ taken_answer (take_record kinds.now (drop at file.now)) }
{
    if file.len() <= at {
        return Err(Refusal::Truncated);
    }
    let kind = file[at];
    if !one_of(kind, kinds) {
        return Err(Refusal::UnknownKind);
    }
    let n = body_length(kind).ok_or(Refusal::UnknownKind)?;
    if n as usize <= file.len() - (at + 1) {
        Ok(kind)
    } else {
        Err(Refusal::Truncated)
    }
}

// The two-byte value at a position, low byte first.
pub fn word_at(file: &[u8], at: usize) -> u16
    requires { at + 1 < length file.now }
    ensures { result ≡ word_of (take 2 (drop at file.now)) }
{
    file[at] as u16 + 256 * (file[at + 1] as u16)
}

// The two bytes of a value, low byte first.
pub fn put_word(out: &mut [u8], at: usize, value: u16)
    requires { at + 1 < length out.old }
    ensures { out.new ≡ sets out.old at (two_bytes value) }
{
    out[at] = (value % 256) as u8;
    out[at + 1] = (value / 256) as u8;
}

// Bytes go to a place of a buffer.
pub fn put_bytes(out: &mut [u8], at: usize, values: &[u8])
    requires { at + length values.now ≤ length out.old }
    ensures { out.new ≡ sets out.old at values.now }
{
    out[at..at + values.len()].copy_from_slice(values);
}
