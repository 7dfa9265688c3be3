// One entry of the index, and the search for the first that has an id.
ghost use Rattle.std.specs.Prelude.{◌≡◌, ◌+◌, ◌*◌, ◌<◌};
ghost use Rattle.words.specs.First.{first};
ghost use Rattle.chunk.specs.Index.{chunks, id_at, off_at, is_at, Found, range_rule, entry_rule};

use super::Span;
use types::refusal::Reason;
use words::big::{be32, be64};

// The number of entries before the last.
pub(crate) fn count(s: &[u8]) -> usize
    ensures { (result ≡ chunks s.now) × (result < 256) }
{
    s.get(6).map_or(0, |c| *c as usize)
}

// The id of entry `i`.
pub(crate) fn id(s: &[u8], i: usize) -> u32
    requires { i < 256 }
    ensures { result ≡ id_at s.now i }
{
    be32(s, 8 + 12 * i)
}

// The offset of entry `i`.
pub(crate) fn offset(s: &[u8], i: usize) -> usize
    requires { i < 256 }
    ensures { result ≡ off_at s.now i }
{
    be64(s, 12 + 12 * i) as usize
}

// The chunk of entry `i`: it runs to the next entry's offset.
pub(crate) fn span(s: &[u8], i: usize) -> Span
    requires { i < 255 }
    ensures { (result.start ≡ off_at s.now i) × (result.end ≡ off_at s.now (i + 1)) }
{
    Span {
        start: offset(s, i),
        end: offset(s, i + 1),
    }
}

// The first of the first `n` entries whose id is `x`.
#[tactic(auto, using(words::proofs::Searches::searching), unfolding(crate::specs::Index::is_at))]
pub(crate) fn seek(s: &[u8], x: u32, n: usize) -> Option<usize>
    requires { n < 256 }
    ensures { Found n (first (is_at s.now x) 0 n) result }
{
    for i in 0..n {
        if id(s, i) == x {
            return Some(i);
        }
    }
    None
}

// Refusal 9 of a chunk in a file of `n` bytes whose index ends at `low`.
#[tactic(auto, using(words::proofs::Rows::rows), unfolding(crate::specs::Index::range_rule))]
fn range_rule(n: usize, low: usize, chunk: Span) -> Result<(), Reason>
    ensures { result ≡ range_rule n low chunk.start chunk.end }
{
    if chunk.start < low {
        return Err(Reason::IndexOffset);
    }
    if n < chunk.start {
        return Err(Reason::IndexOffset);
    }
    if chunk.end < chunk.start {
        return Err(Reason::IndexOffset);
    }
    if n < chunk.end {
        return Err(Reason::IndexOffset);
    }
    Ok(())
}

// Refusals 7 to 9 of entry `i`, which is not the last.
#[tactic(auto, using(words::proofs::Rows::rows), unfolding(crate::specs::Index::entry_rule, crate::specs::Index::seen))]
pub(crate) fn entry_rule(s: &[u8], c: usize, i: usize) -> Result<(), Reason>
    requires { (c ≡ chunks s.now) × (c < 256) × (i < c) }
    ensures { result ≡ entry_rule s.now i }
{
    let x = id(s, i);
    if x == 0 {
        return Err(Reason::IndexId);
    }
    if seek(s, x, i).is_some() {
        return Err(Reason::IndexRepeated);
    }
    range_rule(s.len(), 20 + 12 * c, span(s, i))
}
