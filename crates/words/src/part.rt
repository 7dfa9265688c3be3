// Parts of a slice, and whether they lie in it.
ghost use Rattle.std.specs.Prelude.{◌≡◌};
ghost use Rattle.words.specs.Part.{fits, RecordsOf};

// `count` records of `w` bytes from `at` on lie within `len` bytes.
pub fn room(len: usize, at: usize, count: usize, w: usize) -> bool
    ensures { result ≡ fits len at count w }
{
    match count.checked_mul(w) {
        Some(n) => at <= len && n <= len - at,
        None => false,
    }
}

// `count` records of `w` bytes from `at` on, themselves and no copy; the empty part at the start where they do not lie in `s`.
pub fn part<'a>(s: &'a [u8], at: usize, count: usize, w: usize) -> &'a [u8]
    ensures { RecordsOf s.entry at count w result }
{
    // By ranges: the clause of `get` does not say where in memory a part lies, as `RecordsOf` does.
    if room(s.len(), at, count, w) {
        &s[at..at + count * w]
    } else {
        &s[..0]
    }
}
