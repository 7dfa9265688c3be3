// Prints what the program says for many inputs, one behind the other.
// A record of standard input is a letter, a length of 4 bytes and that many bytes: one whole input.
// 'v' asks for the program's lines alone; 't' then asks for the traversal of the chain as one file, and for its trailer.
// What it reads and what it must print is made by `python3 tests/replay.py crates/replay`.
#![tactic(auto)]

mod single;

use cases::record::{Answers, each};
use prints::print::print;
use report::report;
use single::single;

// Prints what the program says for one input.
fn answer(input: &[u8]) {
    let mut out = io::buffer();
    let size = report(input, &mut out);
    print(&out[..size]);
}

struct Replay;

impl Answers for Replay {
    fn answer(&self, kind: u8, input: &[u8]) -> bool {
        match kind {
            b'v' => answer(input),
            b't' => {
                answer(input);
                single(input);
            }
            _ => return false,
        }
        true
    }
}

fn main() {
    each(&Replay);
}
