// One block: the schedule of 80 words, the 80 rounds, and the sums; and the whole blocks of a part, one after the other.
#![tactic(auto)]

ghost use Rattle.std.specs.Prelude.{◌≡◌, ℕ, ◌≤◌, List, length, take};
ghost use Rattle.block.specs.Message.{after_all};
ghost use Rattle.block.specs.Fips.{f, k, schedule, round, rounds, compress};

use words::big::be32;

// The function of round t.
#[tactic(auto, using(words::proofs::Rows::rows), unfolding(crate::specs::Fips::f))]
fn mix(t: usize, x: u32, y: u32, z: u32) -> u32
    ensures { result ≡ f t x y z }
{
    match t {
        0..20 => (x & y) ^ (!x & z),
        20..40 => x ^ y ^ z,
        40..60 => (x & y) ^ (x & z) ^ (y & z),
        _ => x ^ y ^ z,
    }
}

// The constant of round t.
#[tactic(auto, using(words::proofs::Rows::rows), unfolding(crate::specs::Fips::k))]
fn constant(t: usize) -> u32
    ensures { result ≡ k t }
{
    match t {
        0..20 => 0x5a82_7999,
        20..40 => 0x6ed9_eba1,
        40..60 => 0x8f1b_bcdc,
        _ => 0xca62_c1d6,
    }
}

// The schedule of a block: its own sixteen words, and 64 made of those before them.
fn schedule_of(block: &[u8]) -> [u32; 80]
    requires { length block.now ≡ 64 }
    ensures { result ≡ schedule block.now 80 }
{
    let mut w = [0u32; 80];
    'own: for t in 0..16 {
        w[t] = be32(block, 4 * t);
    }
    'mixed: for t in 16..80 {
        w[t] = (w[t - 3] ^ w[t - 8] ^ w[t - 14] ^ w[t - 16]).rotate_left(1);
    }
    w
}

// Round t, with the word w, on the words a b c d e.
#[tactic(auto, unfolding(crate::specs::Fips::round))]
fn one_round(s: &mut [u32; 5], t: usize, w: u32)
    ensures { s.new ≡ round t w s.old }
{
    let [a, b, c, d, e] = *s;
    let sum = a
        .rotate_left(5)
        .wrapping_add(mix(t, b, c, d))
        .wrapping_add(e)
        .wrapping_add(constant(t))
        .wrapping_add(w);
    *s = [sum, a, b.rotate_left(30), c, d];
}

// The rounds `from` to `to`, on the words that the rounds before left. Called for twenty at a time, so that the compiler folds the tests of t.
fn some_rounds(s: &mut [u32; 5], w: &[u32; 80], from: usize, to: usize)
    requires { (from ≤ to) × (to ≤ 80) }
    ensures { (h : List ℕ) → s.old ≡ rounds w.now h from → s.new ≡ rounds w.now h to }
{
    for t in from..to {
        one_round(s, t, w[t]);
    }
}

// The 80 rounds.
#[tactic(auto, unfolding(crate::specs::Fips::rounds))]
fn all_rounds(s: &mut [u32; 5], w: &[u32; 80])
    ensures { s.new ≡ rounds w.now s.old 80 }
{
    some_rounds(s, w, 0, 20);
    some_rounds(s, w, 20, 40);
    some_rounds(s, w, 40, 60);
    some_rounds(s, w, 60, 80);
}

// The five words after a block.
#[tactic(auto, unfolding(crate::specs::Fips::compress, crate::specs::Fips::sums))]
fn compress_block(h: [u32; 5], block: &[u8]) -> [u32; 5]
    requires { length block.now ≡ 64 }
    ensures { result ≡ compress h block.now }
{
    let mut s = h;
    all_rounds(&mut s, &schedule_of(block));
    [
        s[0].wrapping_add(h[0]),
        s[1].wrapping_add(h[1]),
        s[2].wrapping_add(h[2]),
        s[3].wrapping_add(h[3]),
        s[4].wrapping_add(h[4]),
    ]
}

// The words after all whole blocks of s. The only caller of `compress_block`, which is then compiled into it.
pub fn blocks(h: [u32; 5], s: &[u8]) -> [u32; 5]
    ensures { result ≡ after_all compress h s.now }
{
    s.chunks_exact(64).fold(h, compress_block)
}
