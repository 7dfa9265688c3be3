// Opening one file: refusals 1 to 22, and what the file says of itself.
ghost use Rattle.std.specs.Prelude.{◌≡◌, ◌-◌, ◌<◌, length};
ghost use Rattle.file.specs.Said.{opening_said};
ghost use Rattle.types.specs.Said.{Answers};
ghost use Rattle.chunk.specs.Index.{chunks, off_at, Indexed};
ghost use Rattle.file.specs.Table.{width, index_of, file_of, fanned, chunked, opening_by, opening};

use super::rules::{Index, base_rules, chunk_rules, count_rules, fan_by, head};
use super::{BASE, CDAT, EDGE, File, OIDF, OIDL};
use chunk::{check, end, find, size, start};
use types::refusal;
use types::refusal::{Reason, Refusal};
use words::big::be32;
use words::part::part;

// The width of the file's ids: 20 for hash version 1.
#[tactic(auto, unfolding(crate::specs::Table::width))]
fn width_of(s: &[u8]) -> usize
    ensures { result ≡ width s.now }
{
    20
}

// The chunks that opening asks for.
#[tactic(auto, unfolding(crate::specs::Table::index_of))]
fn locate(s: &[u8]) -> Index
    ensures { result ≡ index_of s.now }
{
    Index {
        base: find(s, BASE),
        cdat: find(s, CDAT),
        oidf: find(s, OIDF),
        oidl: find(s, OIDL),
        edge: find(s, EDGE),
    }
}

// How many bytes stand after the chunks.
fn after(s: &[u8]) -> usize
    ensures { result ≡ length s.now - off_at s.now (chunks s.now) }
{
    s.len().saturating_sub(end(s))
}

// What the file says of itself, once no rule refused it.
#[tactic(auto, unfolding(crate::specs::Table::file_of))]
fn file_of(w: usize, b: u8, x: Index, n: u32) -> File
    ensures { result ≡ file_of w b x n }
{
    File {
        commits: n,
        bases: b,
        width: w,
        oidf: start(x.oidf),
        oidl: start(x.oidl),
        cdat: start(x.cdat),
        edge: x.edge,
        base: start(x.base),
    }
}

// Refusals 20 to 22, by the fan's own part `p`.
#[tactic(auto, using(words::proofs::Rows::rows), unfolding(crate::specs::Table::fanned, crate::specs::Table::not_open, words::specs::First::refuse))]
fn fan_open(p: &[u8], tried: bool, w: usize, b: u8, x: Index) -> Result<File, Refusal>
    requires { (0 < w) × (w < 1000) }
    ensures { result ≡ fanned tried w b x p.now }
{
    if let Some(fall) = fan_by(p, tried) {
        return Err(refusal::at(Reason::FanFalls, (fall + 1) as u64));
    }
    let n = be32(p, 1020);
    count_rules(w, n as usize, x)?;
    Ok(file_of(w, b, x, n))
}

// Refusals 10 to 22 of a file whose index is sound.
#[tactic(auto, using(words::proofs::Rows::rows), unfolding(crate::specs::Table::chunked, crate::specs::Table::not_open, words::specs::First::refuse))]
fn chunks_open(s: &[u8], tried: bool, w: usize, b: u8, x: Index) -> Result<File, Refusal>
    requires indexed { Indexed s.now }
    requires x_value { (x ≡ index_of s.now) × (0 < w) × (w < 1000) }
    ensures { result ≡ chunked tried w b s.now x }
{
    let bases = b as usize;
    base_rules(w, bases, x.base)?;
    chunk_rules(w, bases, after(s), x)?;
    let p = part(s, start(x.oidf), size(x.oidf), 1);
    fan_open(p, tried, w, b, x)
}

// The stages of opening; refusal 20 only where it is `tried`.
#[tactic(auto, using(words::proofs::Rows::rows), unfolding(crate::specs::Table::opening_by, crate::specs::Table::not_open, chunk::specs::Index::checked_of, words::specs::First::refuse))]
fn open_by(s: &[u8], tried: bool) -> Result<File, Refusal>
    ensures { result ≡ opening_by tried s.now }
{
    head(s)?;
    check(s)?;
    let x = locate(s);
    chunks_open(s, tried, width_of(s), s[7], x)
}

// Opens one file.
#[tactic(auto, using(types::proofs::Saying::answers))]
pub fn open(s: &[u8]) -> Result<File, Refusal>
    ensures { Answers opening_said result (opening s.now) }
{
    open_by(s, true)
}
