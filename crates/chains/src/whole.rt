// A whole chain: its opening, a line for each position, then where lookup finds the id of each.
use super::listed::listed;
use super::show::{found, position};
use super::step::walk;
use ask::positions::id_at;
use graph::init::open;
use prints::print::{number, print, refusal};
use types::graph::Position;

// Prints the line of a position; a list of 4 entries is lent for its parents.
fn line(chain: &[u8], list: &[u8], pos: Position) {
    position(chain, list, pos);
    print(b" parents");
    walk(chain, list, pos);
    print(b" list");
    listed(chain, list, pos, 4);
    print(b"\n");
}

// Prints the lines of the positions up to `n`.
fn lines(chain: &[u8], list: &[u8], n: u32) {
    for i in 0..=n {
        line(chain, list, Position(i));
    }
}

// Prints where the id at a position is found.
fn seek(chain: &[u8], list: &[u8], pos: Position) {
    print(b"id");
    number(u64::from(pos.0));
    print(b" ");
    found(chain, list, id_at(chain, list, pos));
}

// The same for the positions up to `n`.
fn seeks(chain: &[u8], list: &[u8], n: u32) {
    for i in 0..=n {
        seek(chain, list, Position(i));
    }
}

// Prints the opening, and hands back how many commits there are: 0 where it is refused.
fn opening(chain: &[u8], list: &[u8]) -> u32 {
    match open(chain, list) {
        Ok(n) => {
            print(b"open");
            number(u64::from(n));
            n
        }
        Err(r) => {
            refusal(r);
            0
        }
    }
}

// A refused chain has the lines of position 0: every question is refused likewise.
pub fn whole(chain: &[u8], list: &[u8]) {
    let n = opening(chain, list);
    print(b"\n");
    lines(chain, list, n);
    seeks(chain, list, n);
}
