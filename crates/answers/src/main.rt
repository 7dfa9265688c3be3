// Answers questions on single files, as standard input asks: whole files, and single parent steps.
// A record there is a kind, a length of 4 bytes and that many bytes. 'g' is a file: a line for each commit, then whether lookup and the counts agree.
// 's' is a position (4 bytes), a phase (1), an EDGE number (8) and a file: one step.
// What it reads and what it must print is made by `python3 tests/answers.py crates/answers`.
#![tactic(auto)]

mod lines;
mod seek;
mod walk;

use cases::record::{Answers, each};
use cases::step::phase_of;
use file::File;
use file::init::open;
use prints::print::{number, print, refusal};
use types::file::Position;
use words::big::{be32, be64};

// Ends the line of a check, by the first commit that it found bad.
fn print_checked(bad: Option<u32>) {
    match bad {
        Some(first) => {
            print(b" BAD");
            number(u64::from(first));
        }
        None => print(b" OK"),
    }
    print(b"\n");
}

fn answer_file(s: &[u8], f: File) {
    let counted = lines::lines(s, f);
    let sought = seek::seek(s, f);
    print(b"lookup");
    print_checked(sought);
    print(b"counts");
    print_checked(counted);
}

fn answer_open(s: &[u8]) {
    match open(s) {
        Ok(f) => answer_file(s, f),
        Err(r) => {
            refusal(r);
            print(b"\n");
        }
    }
}

fn answer_step(s: &[u8]) -> bool {
    if s.len() < 13 {
        return false;
    }
    let pos = Position(be32(s, 0));
    let phase = phase_of(s[4], be64(s, 5) as usize);
    let file = &s[13..];
    match open(file) {
        Ok(f) => walk::step(file, f, pos, phase),
        Err(r) => refusal(r),
    }
    print(b"\n");
    true
}

struct Replies;

impl Answers for Replies {
    fn answer(&self, kind: u8, s: &[u8]) -> bool {
        match kind {
            b'g' => answer_open(s),
            b's' => return answer_step(s),
            _ => return false,
        }
        true
    }
}

fn main() {
    each(&Replies);
}
