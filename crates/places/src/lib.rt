// Where the parts lie that the library hands out, in the numbers that cross to C and Rust.
#![tactic(auto)]

ghost use Rattle.std.specs.Prelude.{◌≡◌, ◌+◌, ◌*◌, ◌^◌, ◌≤◌, ◌<◌, length};
ghost use Rattle.words.specs.First.{fine};
ghost use Rattle.types.specs.Refusals.{refused_at};
ghost use Rattle.fit.specs.Fits.{ask_rule, Fitted};
ghost use Rattle.flat.specs.Images.{flat_part};
ghost use Rattle.places.specs.Places.{chunk_part, id_part, tree_part, base_part, sum_part, chain_id, chain_tree};

use chunk::{check, find, size, start};
use file::File;
use fit::{ask, fit};
use flat::Part;
use flat::parts::{no_part, part_at};
use graph::locate::{Spot, locate};
use types::graph::Position;

// The chunk of a file with an id, where the index is sound; no bytes at 0 where it is absent.
#[tactic(auto, unfolding(chunk::specs::Index::checked_of, words::specs::First::refuse))]
pub fn chunk_part(s: &[u8], id: u32) -> Part
    ensures { result ≡ chunk_part s.now id }
{
    if let Err(r) = check(s) {
        return no_part(r);
    }
    let c = find(s, id);
    part_at(start(c), size(c))
}

// Row `i` of the `n` rows from `from` on, each `more` bytes longer than an id, which it starts with.
fn row_at(s: &[u8], f: File, n: u32, i: u32, from: usize, more: usize) -> Part
    requires { Fitted s.now f → from + n * (f.width + more) ≤ length s.now }
    ensures { result ≡ flat_part (refused_at (ask_rule s.now f n i) 0) (from + i * (f.width + more)) f.width }
{
    match ask(s, f, n, i) {
        Ok(()) => part_at(from + (i as usize) * (f.width + more), f.width),
        Err(reason) => no_part(reason.into()),
    }
}

// The id of a commit.
#[tactic(auto, using(crate::proofs::Placing::placing))]
pub fn id_part(s: &[u8], f: File, pos: types::file::Position) -> Part
    ensures { result ≡ id_part s.now f pos.0 }
{
    row_at(s, f, f.commits, pos.0, f.oidl, 0)
}

// The id of base `j`.
#[tactic(auto, using(crate::proofs::Placing::placing))]
pub fn base_part(s: &[u8], f: File, j: u32) -> Part
    ensures { result ≡ base_part s.now f j }
{
    row_at(s, f, f.bases as u32, j, f.base, 0)
}

// The tree of a commit.
pub fn tree_part(s: &[u8], f: File, pos: types::file::Position) -> Part
    ensures { result ≡ tree_part s.now f pos.0 }
{
    row_at(s, f, f.commits, pos.0, f.cdat, 16)
}

// The trailer.
#[tactic(auto, using(crate::proofs::Placing::placing))]
pub fn sum_part(s: &[u8], f: File) -> Part
    ensures { result ≡ sum_part s.now f }
{
    if let Err(reason) = fit(s, f) {
        return no_part(reason.into());
    }
    part_at(s.len() - f.width, f.width)
}

// The part of a spot's file that holds the front of a row, as wide as an id: the row of its position among those from `from` on, each `more`
// bytes longer than an id.
fn row_in(s: Spot, from: usize, more: usize) -> Part
    requires { s.start + (from + (s.pos.0 * (s.inner.width + more) + (s.inner.width + more))) < 2 ^ 64 }
    ensures { result ≡ flat_part fine (s.start + (from + s.pos.0 * (s.inner.width + more))) s.inner.width }
{
    let w = s.inner.width;
    part_at(s.start + (from + (s.pos.0 as usize) * (w + more)), w)
}

// The id at a position of a chain.
#[tactic(auto, using(crate::proofs::Spotting::spotting))]
pub fn chain_id(chain: &[u8], list: &[u8], pos: Position) -> Part
    ensures { result ≡ chain_id 32 chain.now list.now pos.0 }
{
    match locate(chain, list, pos) {
        Ok(s) => row_in(s, s.inner.oidl, 0),
        Err(r) => no_part(r),
    }
}

// The tree of the commit at a position, likewise.
#[tactic(auto, using(crate::proofs::Spotting::spotting))]
pub fn chain_tree(chain: &[u8], list: &[u8], pos: Position) -> Part
    ensures { result ≡ chain_tree 32 chain.now list.now pos.0 }
{
    match locate(chain, list, pos) {
        Ok(s) => row_in(s, s.inner.cdat, 16),
        Err(r) => no_part(r),
    }
}
