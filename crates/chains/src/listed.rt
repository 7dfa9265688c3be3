// The parent list of a commit: what it answers, and what the lent list holds afterwards.
use prints::print::{number, print, refusal};
use types::graph::Position;
use types::refusal::Refusal;
use walk::listing::list_at;
use words::big::be32;

// What a list holds before it is lent. It is above every position that a walk answers.
const MARK: u32 = 0xEEEEEEEE;

fn total(t: Result<usize, Refusal>) {
    match t {
        Ok(n) => {
            print(b" count");
            number(n as u64);
        }
        Err(r) => {
            print(b" ");
            refusal(r);
        }
    }
}

// Prints an entry of a list, or `_` where it is as it was before.
fn entry(x: u32) {
    if x == MARK {
        print(b" _");
    } else {
        number(u64::from(x));
    }
}

// Lends a list of `size` entries, and prints the answer, the entries, and the one behind them, which is not lent. Nothing for more than 80.
pub fn listed(chain: &[u8], list: &[u8], pos: Position, size: usize) {
    if 80 < size {
        return;
    }
    let mut out = [MARK; 81];
    total(list_at(chain, list, pos, &mut out[..size]));
    for x in &out[..=size] {
        entry(*x);
    }
}

// Prints the line of a list that is asked for.
fn line(chain: &[u8], list: &[u8], pos: Position, size: u32) {
    print(b"list");
    number(u64::from(pos.0));
    number(u64::from(size));
    listed(chain, list, pos, size as usize);
    print(b"\n");
}

// Prints a line for each list that is asked: a position (4 bytes) and how many entries to lend (4).
pub fn lists(chain: &[u8], list: &[u8], asked: &[u8]) {
    for question in asked.chunks_exact(8) {
        line(chain, list, Position(be32(question, 0)), be32(question, 4));
    }
}
