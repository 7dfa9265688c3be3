// Answers questions on chains, as standard input asks: whole chains, parent steps, parent lists, lookups and positions.
// A record there is a kind, a length of 4 bytes and that many bytes: the list behind its length in 4 bytes, the question behind its own, the chain.
// 'w' asks nothing more: the opening, a line for each position and the one behind the last, then where lookup finds the id of each.
// 's' asks for steps, each a position (4 bytes), a phase (1) and an EDGE number (8): by value, and through the second door.
// 'l' asks for parent lists, each a position (4 bytes) and how many entries the list has (4, at most 80).
// 'f' looks an id up. 'p' asks for positions, 4 bytes each.
// What it reads and what it must print is made by `python3 tests/chains.py crates/chains`.
#![tactic(auto)]

mod listed;
mod show;
mod step;
mod whole;

use cases::record::{Answers, each};
use listed::lists;
use show::{found, positions};
use step::steps;
use words::big::be32;
use words::part::part;

// The part behind its length in 4 bytes. Empty where that many are not there.
fn lead<'a>(s: &'a [u8]) -> &'a [u8] {
    part(s, 4, be32(s, 0) as usize, 1)
}

// What follows such a part.
fn rest<'a>(s: &'a [u8]) -> &'a [u8] {
    let from = 4 + (be32(s, 0) as usize);
    if s.len() < from {
        return &s[0..0];
    }
    &s[from..]
}

// Answers a question on a chain. Says whether its kind is known.
fn ask(kind: u8, chain: &[u8], list: &[u8], asked: &[u8]) -> bool {
    match kind {
        b'w' => whole::whole(chain, list),
        b's' => steps(chain, list, asked),
        b'l' => lists(chain, list, asked),
        b'f' => found(chain, list, asked),
        b'p' => positions(chain, list, asked),
        _ => return false,
    }
    true
}

struct Chains;

impl Answers for Chains {
    fn answer(&self, kind: u8, s: &[u8]) -> bool {
        let more = rest(s);
        ask(kind, rest(more), lead(s), lead(more))
    }
}

fn main() {
    each(&Chains);
}
