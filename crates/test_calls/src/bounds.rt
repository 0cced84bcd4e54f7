// Reads that stay within their row, and parts of rows: nothing here asks its caller for a proof.
ghost use Rattle.std.specs.Prelude.{◌≤◌, length};

// What every entry of a lent buffer holds before a call.
pub const OLD: u8 = 170;

pub const OLD_WORD: u16 = 43690;

// The byte at a place, 0 past the end.
pub fn byte_at(s: &[u8], i: usize) -> u8 {
    if i < s.len() { s[i] } else { 0 }
}

// The sum of two numbers that are not large.
pub fn sum(x: usize, y: usize) -> usize {
    if x < 1000000 {
        if y < 1000000 {
            return x + y;
        }
    }
    x
}

// The two-byte value at a place, low byte first.
pub fn word_at(s: &[u8], i: usize) -> u16 {
    byte_at(s, i) as u16 + 256 * (byte_at(s, sum(i, 1)) as u16)
}

// The three-byte value at a place.
pub fn long_at(s: &[u8], i: usize) -> usize {
    word_at(s, i) as usize + 65536 * (byte_at(s, sum(i, 2)) as usize)
}

// n, or the length of the row where that is less: a count of entries at its start.
pub fn within(s: &[u8], n: usize) -> usize
    ensures { result ≤ length s.now }
{
    if n <= s.len() { n } else { s.len() }
}

pub fn within_words(s: &[u16], n: usize) -> usize
    ensures { result ≤ length s.now }
{
    if n <= s.len() { n } else { s.len() }
}

// What stands from place n on.
pub fn rest(s: &[u8], n: usize) -> &[u8] {
    if n <= s.len() { &s[n..] } else { &s[..0] }
}

// The first n entries, or all where there are fewer.
pub fn front(s: &[u8], n: usize) -> &[u8] {
    let k = within(s, n);
    &s[..k]
}

pub fn front_words(s: &[u16], n: usize) -> &[u16] {
    let k = within_words(s, n);
    &s[..k]
}
