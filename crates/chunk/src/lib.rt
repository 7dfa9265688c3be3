// The chunk index of a file: C + 1 entries of 12 bytes behind the header of 8, each a 4-byte id and an 8-byte offset.
#![tactic(auto)]

mod index;

ghost use Rattle.std.specs.Prelude.{◌≡◌, ◌+◌, is_none};
ghost use Rattle.chunk.specs.Said.{chunk_said, indexed_said};
ghost use Rattle.types.specs.Said.{Answers};
ghost use Rattle.chunk.specs.Index.{chunks, off_at, chunk_of, start_of, size_of, checked_of, nth_of};

use index::{count, entry_rule, id, offset, seek, span};
use types::refusal;
use types::refusal::{Reason, Refusal};

// The bytes from `start` up to `end`, as the index says.
#[derive(Clone, Copy)]
pub struct Span {
    pub start: usize,
    pub end: usize,
}

// An entry of the index: the chunk's id and its bytes.
#[derive(Clone, Copy)]
pub struct Entry {
    pub id: u32,
    pub span: Span,
}

// The chunk with the id `x`, where there is one.
#[tactic(auto, using(words::proofs::Rows::rows, types::proofs::Saying::answers), unfolding(crate::specs::Index::chunk_of, crate::specs::Index::chunk_at))]
pub fn find(s: &[u8], x: u32) -> Option<Span>
    ensures { Answers chunk_said result (chunk_of s.now x) }
{
    let e = seek(s, x, count(s))?;
    Some(span(s, e))
}

// Whether a chunk is absent. An empty chunk is not.
pub fn missing(c: Option<Span>) -> bool
    ensures { result ≡ is_none c }
{
    c.is_none()
}

// Where a chunk starts; 0 where it is absent.
pub fn start(c: Option<Span>) -> usize
    ensures { result ≡ start_of c }
{
    c.map_or(0, |p| p.start)
}

// How many bytes a chunk has; 0 where it is absent.
pub fn size(c: Option<Span>) -> usize
    ensures { result ≡ size_of c }
{
    c.map_or(0, |p| p.end.saturating_sub(p.start))
}

// Where the chunks end: the offset of the last entry.
pub fn end(s: &[u8]) -> usize
    ensures { result ≡ off_at s.now (chunks s.now) }
{
    offset(s, count(s))
}

// Refusals 6 to 9 of the index; where it is sound, how many entries it has, the last left out.
pub fn check(s: &[u8]) -> Result<usize, Refusal>
    ensures { result ≡ checked_of s.now }
{
    let c = count(s);
    if s.len() < 20 + 12 * c {
        return Err(refusal::at(Reason::IndexCut, 0));
    }
    for i in 0..c {
        entry_rule(s, c, i).map_err(|reason| refusal::at(reason, i as u64))?;
    }
    if id(s, c) != 0 {
        return Err(refusal::at(Reason::IndexId, c as u64));
    }
    Ok(c)
}

// Entry `k` of a sound index, the last left out; 6 to 9 where the index is not sound.
pub fn nth(s: &[u8], k: u32) -> Result<Option<Entry>, Refusal>
    ensures { Answers indexed_said result (nth_of s.now k) }
{
    check(s)?;
    let i = k as usize;
    if count(s) <= i {
        return Ok(None);
    }
    Ok(Some(Entry {
        id: id(s, i),
        span: span(s, i),
    }))
}
