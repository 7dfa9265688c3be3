// Opens files and reads names, as standard input asks, and prints a line for each answer.
// A record there is a kind, a length of 4 bytes and that many bytes: 'f' is a file, 'c' a file of which every prefix is opened, 'n' a file's name.
// What it reads and what it must print is made by `python3 tests/opens.py crates/opens`.
#![tactic(auto)]

use cases::record::{Answers, each};
use file::File;
use file::init::open;
use name::Name;
use prints::print::{hex, number, print, refusal};
use types::refusal::Refusal;

fn print_file(f: File) {
    print(b"open");
    number(u64::from(f.commits));
    number(u64::from(f.bases));
    print(b"\n");
}

fn print_refusal(r: Refusal) {
    refusal(r);
    print(b"\n");
}

fn answer_file(s: &[u8]) {
    match open(s) {
        Ok(f) => print_file(f),
        Err(r) => print_refusal(r),
    }
}

// Opens what each length from 0 on leaves of a file.
fn answer_prefixes(s: &[u8]) {
    for n in 0..=s.len() {
        answer_file(&s[..n]);
    }
}

fn answer_name(s: &[u8]) {
    let (kind, hash) = match name::read(s) {
        Name::Other => (0, [0; 20]),
        Name::Claims(hash) => (1, hash),
        Name::Hashless => (2, [0; 20]),
    };
    print(b"name");
    number(kind);
    print(b" ");
    hex(&hash);
    print(b"\n");
}

struct Opens;

impl Answers for Opens {
    fn answer(&self, kind: u8, s: &[u8]) -> bool {
        match kind {
            b'f' => answer_file(s),
            b'c' => answer_prefixes(s),
            b'n' => answer_name(s),
            _ => return false,
        }
        true
    }
}

fn main() {
    each(&Opens);
}
