// How two runs of bytes stand to each other: as numbers, so the first difference decides.
#![tactic(auto)]

ghost use Rattle.std.specs.Prelude.{◌≡◌, length, eqb};
ghost use Rattle.std.specs.Ordering.{nat_cmp};
ghost use Rattle.order.specs.Said.{order_said};
ghost use Rattle.types.specs.Said.{Answers};
ghost use Rattle.words.specs.Big.{be, number};

use std::cmp::Ordering;

// All bytes are zero.
pub fn zero(s: &[u8]) -> bool
    ensures { result ≡ eqb (number s.now) 0 }
{
    s.iter().all(|&b| b == 0)
}

// How the number that `s` makes stands to 0.
fn against_zero(s: &[u8]) -> Ordering
    ensures { result ≡ nat_cmp (number s.now) 0 }
{
    if zero(s) {
        Ordering::Equal
    } else {
        Ordering::Greater
    }
}

// How `x` stands to the run of as many bytes at `at` of `s`; a byte past the end of `s` counts as 0.
pub fn compare(x: &[u8], s: &[u8], at: usize) -> Ordering
    ensures { Answers order_said result (nat_cmp (number x.now) (be (length x.now) s.now at)) }
{
    let n = x.len().min(s.len().saturating_sub(at));
    // By hand: the ids of a bucket differ in their first bytes, where the slices' `cmp` tries longer runs first.
    for k in 0..n {
        let a = x[k];
        let b = s[at + k];
        if a < b {
            return Ordering::Less;
        }
        if b < a {
            return Ordering::Greater;
        }
    }
    against_zero(&x[n..])
}

// `x` is the run of as many bytes at `at` of `s`; a byte past the end of `s` counts as 0.
pub fn same(x: &[u8], s: &[u8], at: usize) -> bool
    ensures { result ≡ eqb (number x.now) (be (length x.now) s.now at) }
{
    compare(x, s, at).is_eq()
}
