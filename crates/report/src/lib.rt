// What the program prints for its whole input: the lines of the verification, or that the input cannot be read.
#![tactic(auto)]

mod lines;

ghost use Rattle.std.specs.Prelude.{◌≡◌, ◌++◌, ◌≤◌, length, take, drop};
ghost use Rattle.report.specs.Output.{chain_at, answer_lines, output_of};
ghost use Rattle.report.specs.Puts.{Puts};

use audit::Verification;
use lines::{accepted, count_lines, refused, word};
use verify::verify;
use words::big::be32;

// Where the chain starts in an input that has the parts that the program takes.
fn chain_start(input: &[u8]) -> Option<usize>
    ensures { result ≡ chain_at input.now }
{
    if input.len() < 4 {
        return None;
    }
    let n = be32(input, 0) as usize;
    if 12_288 < n {
        return None;
    }
    if input.len() < 4 + n {
        return None;
    }
    if 49_152 < input.len() - (4 + n) {
        return None;
    }
    Some(4 + n)
}

// Writes the lines of an answer at the start of `out`; returns the place behind them.
fn answer(out: &mut [u8], v: Verification) -> usize
    requires { 4096 ≤ length out.old }
    ensures { Puts 4096 out.old 0 (answer_lines v.verdict v.counts) out.new result }
{
    match v.verdict {
        Ok(summary) => {
            let at = accepted(out, 0, summary.commits, summary.length);
            count_lines(out, at, &v.counts)
        }
        Err(refusal) => refused(out, 0, refusal),
    }
}

// Writes what the program prints for `input` at the start of `out`; returns how many bytes that is. They are a part of `out`, `&out[..size]`.
pub fn report(input: &[u8], out: &mut [u8; 4096]) -> usize
    ensures size { result ≡ length (output_of input.now) }
    ensures holds { out.new ≡ output_of input.now ++ drop (length (output_of input.now)) out.old }
    ensures part { (result ≤ length out.new) × (result ≡ length (take result out.new)) }
{
    match chain_start(input) {
        Some(from) => answer(out, verify(&input[from..], &input[4..from])),
        None => word(out, 0, b"unreadable\n"),
    }
}
