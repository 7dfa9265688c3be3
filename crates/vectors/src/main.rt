// Prints SHA-1 digests, one a line: of the published messages, and of every length of a pattern up to 200, whole and in two pieces.
// What it must print is made by `bash crates/vectors/make > crates/vectors/stdout`.
#![tactic(auto)]

use digest::sha1;
use hasher::Hasher;
use std::array;

// The descriptor of standard output.
const STDOUT: i32 = 1;

// The hexadecimal digit of x modulo 16.
fn digit(x: u8) -> u8 {
    let n = x % 16;
    if n < 10 { b'0' + n } else { b'a' - 10 + n }
}

// Prints a digest as 40 digits, and ends the line. One write a line, so that no other program's lines come between; one that fails is passed over.
fn print(digest: [u8; 20]) {
    let mut line = [b'\n'; 41];
    for i in 0..20 {
        line[2 * i] = digit(digest[i] / 16);
        line[2 * i + 1] = digit(digest[i]);
    }
    io::write_all(STDOUT, &line);
}

// A million 'a', fed in pieces of 1, 2, 3 and so on to 131 bytes, over and over: every offset in a block is met.
fn million() -> [u8; 20] {
    let a = [b'a'; 131];
    let mut h = Hasher::new();
    let mut left = 1_000_000;
    let mut n = 1;
    // No range says how many pieces there are: their size grows, starts over, and the last is what is left.
    while 0 < left {
        let k = left.min(n);
        h = h.update(&a[..k]);
        left -= k;
        n = n % 131 + 1;
    }
    h.finish()
}

// The pattern: byte i is 7 i + 3 modulo 256.
fn pattern() -> [u8; 200] {
    array::from_fn(|i| ((i * 7 + 3) % 256) as u8)
}

// Every length of the pattern, whole.
fn whole(p: &[u8]) {
    for n in 0..=p.len() {
        print(sha1(&p[..n]));
    }
}

// Every length of the pattern, in two pieces, the first a third of it.
fn split(p: &[u8]) {
    for n in 0..=p.len() {
        let k = n / 3;
        print(Hasher::new().update(&p[..k]).update(&p[k..n]).finish());
    }
}

fn main() {
    print(sha1(b""));
    print(sha1(b"abc"));
    print(sha1(b"abcdbcdecdefdefgefghfghighijhijkijkljklmklmnlmnomnopnopq"));
    print(sha1(
        b"abcdefghbcdefghicdefghijdefghijkefghijklfghijklmghijklmnhijklmnoijklmnopjklmnopqklmnopqrlmnopqrsmnopqrstnopqrstu",
    ));
    print(million());
    let p = pattern();
    whole(&p);
    split(&p);
}
