// The lines of an answer, each written at a place of a buffer that has room for it.
ghost use Rattle.std.specs.Prelude.{[], ◌∷◌, ◌++◌, ◌+◌, ◌≤◌, length};
ghost use Rattle.types.specs.Refusals.{number_of};
ghost use Rattle.text.specs.Text.{dec};
ghost use Rattle.report.specs.Output.{ascii, line, length_word, key_word, count_line, count_lines};
ghost use Rattle.report.specs.Puts.{Puts};

use audit::Length;
use text::{number, put};
use types::refusal::Refusal;

// Bytes as they are.
pub(crate) fn word(out: &mut [u8], at: usize, s: &[u8]) -> usize
    requires { at + length s.now ≤ length out.old }
    ensures { Puts (length s.now) out.old at s.now out.new result }
{
    put(out, at, s)
}

// A space and a number.
fn figure(out: &mut [u8], at: usize, n: u64) -> usize
    requires { at + 21 ≤ length out.old }
    ensures { Puts 21 out.old at (ascii " " ++ dec n) out.new result }
{
    let next = word(out, at, b" ");
    number(out, next, n)
}

// A space and the length's word.
fn length(out: &mut [u8], at: usize, l: Length) -> usize
    requires { at + 21 ≤ length out.old }
    ensures { Puts 21 out.old at (ascii " " ++ length_word l) out.new result }
{
    match l {
        Length::Steps(n) => figure(out, at, n as u64),
        Length::Cyclic => word(out, at, b" cyclic"),
    }
}

// A space and the word of a key.
fn key(out: &mut [u8], at: usize, k: usize) -> usize
    requires { at + 21 ≤ length out.old }
    ensures { Puts 21 out.old at (ascii " " ++ key_word k) out.new result }
{
    if k == 65 {
        return word(out, at, b" more");
    }
    figure(out, at, k as u64)
}

// The first line of an accepted chain.
pub(crate) fn accepted(out: &mut [u8], at: usize, n: u32, l: Length) -> usize
    requires { at + 51 ≤ length out.old }
    ensures { Puts 51 out.old at (line "accepted" (dec n ∷ length_word l ∷ [])) out.new result }
{
    let a = word(out, at, b"accepted");
    let b = figure(out, a, n as u64);
    let c = length(out, b, l);
    word(out, c, b"\n")
}

// The line of a refusal.
pub(crate) fn refused(out: &mut [u8], at: usize, x: Refusal) -> usize
    requires { at + 71 ≤ length out.old }
    ensures { Puts 71 out.old at (line "refused" (dec (number_of x.reason) ∷ dec x.file ∷ dec x.place ∷ [])) out.new result }
{
    let a = word(out, at, b"refused");
    let b = figure(out, a, x.reason.number() as u64);
    let c = figure(out, b, x.file as u64);
    let d = figure(out, c, x.place);
    word(out, d, b"\n")
}

// The line of a count, if it is above 0.
fn count_line(out: &mut [u8], at: usize, k: usize, n: u32) -> usize
    requires { at + 50 ≤ length out.old }
    ensures { Puts 50 out.old at (count_line k n) out.new result }
{
    if 0 < n {
        let a = word(out, at, b"parents");
        let b = key(out, a, k);
        let c = figure(out, b, n as u64);
        return word(out, c, b"\n");
    }
    at
}

// The lines of all counts.
pub(crate) fn count_lines(out: &mut [u8], at: usize, counts: &[u32; 66]) -> usize
    requires { at + 3300 ≤ length out.old }
    ensures { Puts 3300 out.old at (count_lines counts.now 66) out.new result }
{
    let mut next = at;
    for (k, n) in counts.iter().enumerate() {
        next = count_line(out, next, k, *n);
    }
    next
}
