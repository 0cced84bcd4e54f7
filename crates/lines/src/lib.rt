// The lines of the lister's text: which line an answer calls for, and the bytes of a line, put into a lent buffer from a place on.
// The whole text, `listing`, is defined in specs/Listings.antt. No function has a `requires`.

#![tactic(auto)]

ghost use Rattle.std.specs.Prelude.{◌≡◌, map, drop};
ghost use Rattle.network.specs.Replies.{refusal_number};
ghost use Rattle.lines.specs.Listings.{line, character, plan_text, end_text, more_text, refused_text};
ghost use Rattle.lines.specs.Dues.{plan_due, refusal_due, due_of};
ghost use Rattle.lines.specs.Puts.{Put};

use network::Refusal;
use replies::{Reply, Verdict};
use tables::least;

// A line: that of a plan, after which so many plans may still be printed; `more`; `end`; or `refused ` and a number.
#[derive(Clone, Copy)]
pub enum Due {
    Plan(usize),
    More,
    End,
    Refused(u8),
}

// Puts the first bytes of a text to the front of the buffer, as many as it holds.
fn put(text: &[u8], out: &mut [u8]) -> usize
    ensures { Put text.now out.old out.new result }
{
    let n = least(text.len(), out.len());
    out[..n].copy_from_slice(&text[..n]);
    n
}

// The same of a text from a place on.
fn put_from(text: &[u8], at: usize, out: &mut [u8]) -> usize
    ensures { Put (drop at text.now) out.old out.new result }
{
    if at < text.len() {
        put(&text[at..], out)
    } else {
        0
    }
}

// The character of a gated reach's byte.
fn digit(x: u8) -> u8
    ensures { result ≡ character x }
{
    if x == 0 { b'0' } else { b'1' }
}

// Puts the characters of the first bytes of a setting, as many as the buffer holds.
fn put_digits(setting: &[u8], out: &mut [u8]) -> usize
    ensures { Put (map character setting.now) out.old out.new result }
{
    let n = least(setting.len(), out.len());
    for (i, &x) in setting[..n].iter().enumerate() {
        out[i] = digit(x);
    }
    n
}

// Puts the line of a plan, from a place on.
pub fn put_plan(plan: &[u8], at: usize, out: &mut [u8]) -> usize
    ensures { Put (drop at (line (plan_text plan.now))) out.old out.new result }
{
    if plan.is_empty() {
        return put_from(b"-\n", at, out);
    }
    if plan.len() < at {
        return 0;
    }
    let k = put_digits(&plan[at..], out);
    if k == out.len() {
        return k;
    }
    out[k] = b'\n';
    k + 1
}

// Puts the line of a refusal, from a place on.
pub fn put_refused(number: u8, at: usize, out: &mut [u8]) -> usize
    ensures { Put (drop at (line (refused_text number))) out.old out.new result }
{
    if number < 10 {
        let mut text = *b"refused 0\n";
        text[8] = b'0' + number;
        return put_from(&text, at, out);
    }
    let mut text = *b"refused 00\n";
    text[8] = b'0' + number / 10;
    text[9] = b'0' + number % 10;
    put_from(&text, at, out)
}

// Puts the line `more`, from a place on.
pub fn put_more(at: usize, out: &mut [u8]) -> usize
    ensures { Put (drop at (line more_text)) out.old out.new result }
{
    put_from(b"more\n", at, out)
}

// Puts the line `end`, from a place on.
pub fn put_end(at: usize, out: &mut [u8]) -> usize
    ensures { Put (drop at (line end_text)) out.old out.new result }
{
    put_from(b"end\n", at, out)
}

// The line for a refusal: `end` where it says that no plan is later.
pub fn due_refused(r: Refusal) -> Due
    ensures { result ≡ refusal_due (refusal_number r) }
{
    let n = u8::from(r);
    if n == 11 { Due::End } else { Due::Refused(n) }
}

// The line for a plan that is there to be printed, if so many still may be.
pub fn due_plan(left: usize) -> Due
    ensures { result ≡ plan_due left }
{
    if left == 0 {
        Due::More
    } else {
        Due::Plan(left - 1)
    }
}

// The line that an answer of first or next calls for.
pub fn due_of(answer: Result<Reply, Refusal>, left: usize) -> Due
    ensures { result ≡ due_of answer left }
{
    match answer {
        Err(r) => due_refused(r),
        Ok(reply) => match reply.verdict {
            Verdict::Plan => due_plan(left),
            Verdict::ShutIn(_) => Due::Refused(9),
            Verdict::Lone(_) => Due::Refused(10),
        },
    }
}
