// Text written into a lent buffer, at a place that moves on. What does not fit is not written, and the place stays.
#![tactic(auto)]

ghost use Rattle.std.specs.Prelude.{◌≡◌, ◌+◌, ◌<◌, length};
ghost use Rattle.text.specs.Text.{dec, written, after};

// Writes `s` at the place `at` of `out`; returns the place behind it.
pub fn put(out: &mut [u8], at: usize, s: &[u8]) -> usize
    ensures place { result ≡ after (length out.old) at s.now }
    ensures holds { out.new ≡ written out.old at s.now }
{
    let end = at.saturating_add(s.len());
    if out.len() < end {
        return at;
    }
    out[at..end].copy_from_slice(s);
    end
}

// The ASCII code of a digit.
fn digit(x: u64) -> u8
    requires { x < 10 }
    ensures { result ≡ 48 + x }
{
    b'0' + (x as u8)
}

// Writes `n` in decimal at the place `at` of `out`; returns the place behind it. A u64 has at most 20 digits.
pub fn number(out: &mut [u8], at: usize, n: u64) -> usize
    ensures place { result ≡ after (length out.old) at (dec n) }
    ensures holds { out.new ≡ written out.old at (dec n) }
{
    let mut d = [0; 20];
    let mut from = 19;
    let mut rest = n;
    // By what is left, and not a `for` over the places: that one would need an answer at its end, which is never reached.
    while 10 <= rest {
        d[from] = digit(rest % 10);
        rest /= 10;
        from -= 1;
    }
    d[from] = digit(rest);
    put(out, at, &d[from..])
}
