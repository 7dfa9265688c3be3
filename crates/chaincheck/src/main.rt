// Verifies a chain: standard input holds the list's length in 4 bytes, the list, then the chain. Prints what document 01 says.
// What it reads and what it must print is made by `python3 tests/chaincheck.py crates/chaincheck`.
#![tactic(auto)]

ghost use Rattle.std.specs.Prelude.{◌≡◌, length};

use report::report;

// The descriptors of standard input and output.
const STDIN: i32 = 0;

const STDOUT: i32 = 1;

// Zeros for the largest input that can be read, 4 + 12,288 + 49,152 bytes, and one byte more. Nothing behind it changes the answer.
fn room() -> [u8; 61445]
    ensures { 61445 ≡ length result }
{
    [0; 61445]
}

fn main() {
    let mut input = room();
    let n = io::read_full(STDIN, &mut input);
    let mut out = io::buffer();
    let size = report(&input[..n], &mut out);
    io::write_all(STDOUT, &out[..size]);
}
