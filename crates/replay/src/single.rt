// The chain of an input as one file: its traversal, its trailer, and whether that is the digest.
use file::File;
use file::init::open;
use prints::print::{hex, number, print, refusal};
use sums::{checksum, verify_checksum};
use traverse::{Summary, traverse};
use types::refusal::Refusal;
use words::big::be32;
use words::part::part;

fn refused(r: Refusal) {
    refusal(r);
    print(b"\n");
}

fn summary(x: Summary) {
    print(b"traversed");
    number(x.commits as u64);
    number(x.highest as u64);
    number(x.lowest as u64);
    number(x.most as u64);
    print(b"\n");
}

// The line of a count above 0.
fn count(k: usize, n: u32) {
    if 0 < n {
        print(b"count");
        number(k as u64);
        number(n as u64);
        print(b"\n");
    }
}

fn counted(counts: &[u32; 66]) {
    for (k, n) in counts.iter().enumerate() {
        count(k, *n);
    }
}

fn traversed(s: &[u8], list: &[u8]) {
    let t = traverse(s, list);
    match t.verdict {
        Ok(x) => summary(x),
        Err(r) => refused(r),
    }
    counted(&t.counts);
}

fn trailer(s: &[u8], f: File) {
    print(b"checksum ");
    hex(checksum(s, f));
    print(b" ");
    match verify_checksum(s, f) {
        Ok(()) => print(b"right\n"),
        Err(r) => refused(r),
    }
}

// The list of an input stands behind its length in 4 bytes, and the chain behind the list.
pub fn single(input: &[u8]) {
    let size = be32(input, 0) as usize;
    if input.len() < 4 + size {
        return;
    }
    let s = &input[4 + size..];
    traversed(s, part(input, 4, size, 1));
    match open(s) {
        Ok(f) => trailer(s, f),
        Err(r) => refused(r),
    }
}
