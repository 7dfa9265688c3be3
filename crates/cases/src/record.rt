// Records of standard input: a kind, a length of 4 bytes and that many bytes.
ghost use Rattle.std.specs.Prelude.{◌≡◌, length, IfSome};
ghost use Rattle.io.specs.Counts.{IsPrefixLen};

use words::big::be32;

// A record's kind, and how many bytes it has.
#[derive(Clone, Copy, Debug, PartialEq, Eq)]
pub struct Record {
    pub kind: u8,
    pub size: usize,
}

// The descriptor of standard input.
const STDIN: i32 = 0;

// Zeros for the bytes of a record: 256 files of 1,100 bytes, their list, and some commits.
pub fn room() -> [u8; 320000]
    ensures { 320000 ≡ length result }
{
    [0; 320000]
}

// Reads one record, and puts its bytes at the start of `buf`. There is none where the input ends, or where `buf` is too small.
pub fn read(buf: &mut [u8]) -> Option<Record>
    ensures { IfSome result (λ r. IsPrefixLen r.size buf.new) }
{
    let mut head = [0u8; 5];
    if io::read_full(STDIN, &mut head) < 5 {
        return None;
    }
    let n = be32(&head, 1) as usize;
    if buf.len() < n {
        return None;
    }
    if io::read_full(STDIN, &mut buf[..n]) < n {
        return None;
    }
    Some(Record {
        kind: head[0],
        size: n,
    })
}

// Who answers records. A trait and no closure: to call one that is passed in would need a `requires`.
pub trait Answers {
    // Answers one record. Says whether its kind is known.
    fn answer(&self, kind: u8, bytes: &[u8]) -> bool;
}

// Hands each record to who answers them, until one's kind is not known, or there are none. The turns are counted, for nothing says
// that the input ends.
pub fn each<A: Answers>(program: &A) {
    for _ in 0..u64::MAX {
        let mut bytes = room();
        let Some(r) = read(&mut bytes) else {
            return;
        };
        if !program.answer(r.kind, &bytes[..r.size]) {
            return;
        }
    }
}
