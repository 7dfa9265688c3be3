// Commits of one file: tree, generation, time and parent words.
#![tactic(auto)]

ghost use Rattle.std.specs.Prelude.{◌≡◌, ◌+◌, ◌*◌, ◌≤◌, ◌<◌, length};
ghost use Rattle.commit.specs.Said.{asked_said};
ghost use Rattle.types.specs.Said.{Answers};
ghost use Rattle.commit.specs.Commits.{edge_of, row_rule, commit_of, commit_in, row_of, commit_at};
ghost use Rattle.fit.specs.Fits.{ask_rule, AskedPart};

use file::File;
use fit::parts::Fit;
use types::graph::Position;
use types::refusal::{Reason, Refusal};
use types::width::known;
use words::big::be32;
use words::part::part;

// A parent word: none, a position in the chain, or an index into EDGE.
#[derive(Clone, Copy)]
pub enum ParentEdge {
    None,
    GraphPosition(Position),
    ExtraEdgeIndex(u32),
}

#[derive(Clone, Copy)]
pub struct Commit {
    pub generation: u32,
    pub time: u64,
    pub first: ParentEdge,
    pub second: ParentEdge,
}

#[tactic(auto, using(words::proofs::Rows::rows), unfolding(crate::specs::Commits::edge_of))]
fn parent_edge(raw: u32) -> ParentEdge
    ensures { result ≡ edge_of raw }
{
    if raw == 0x7000_0000 {
        return ParentEdge::None;
    }
    if 0x8000_0000 <= raw {
        return ParentEdge::ExtraEdgeIndex(raw - 0x8000_0000);
    }
    ParentEdge::GraphPosition(Position(raw))
}

// Refusal 40 of row `i` of a CDAT chunk's part of `n` bytes, where ids have `w` bytes.
#[tactic(auto, using(crate::proofs::Words::placing), unfolding(crate::specs::Commits::row_rule))]
fn row_rule(n: usize, w: usize, i: u32) -> Result<(), Reason>
    ensures { result ≡ row_rule w n i }
{
    if !known(w) || n < (i as usize) * (w + 16) + (w + 16) {
        return Err(Reason::Position);
    }
    Ok(())
}

// The fields at `at`, just behind a row's tree.
#[tactic(auto, unfolding(crate::specs::Commits::commit_of))]
fn fields(cdat: &[u8], at: usize) -> Commit
    requires { at + 16 ≤ length cdat.now }
    ensures { result ≡ commit_of cdat.now at }
{
    let first = parent_edge(be32(cdat, at));
    let second = parent_edge(be32(cdat, at + 4));
    let high = be32(cdat, at + 8);
    let low = be32(cdat, at + 12);
    Commit {
        generation: high / 4,
        time: ((high % 4) as u64) * 0x1_0000_0000 + (low as u64),
        first,
        second,
    }
}

// The commit in row `pos` of a CDAT chunk's own part, where ids have `w` bytes.
#[tactic(auto, using(crate::proofs::Words::row_there), unfolding(crate::specs::Commits::commit_in, words::specs::First::refuse))]
pub fn commit_in(cdat: &[u8], w: usize, pos: types::file::Position) -> Result<Commit, Refusal>
    ensures { Answers asked_said result (commit_in w cdat.now pos.0) }
{
    let i = pos.0;
    row_rule(cdat.len(), w, i)?;
    Ok(fields(cdat, (i as usize) * (w + 16) + w))
}

// A commit of a file.
#[tactic(auto, using(crate::proofs::Words::asked_room), unfolding(crate::specs::Commits::commit_at, words::specs::First::refuse))]
pub fn commit_at(s: &[u8], f: File, pos: types::file::Position) -> Result<Commit, Refusal>
    ensures { Answers asked_said result (commit_at s.now f pos.0) }
{
    let fit = Fit::asked(s, f, f.commits, pos.0)?;
    let row = (pos.0 as usize) * (f.width + 16);
    Ok(fields(fit.rows(), row + f.width))
}

// The tree of a commit: the part of `s` that stores it, itself and no copy. Empty where the commit is refused.
pub fn tree_at<'a>(s: &'a [u8], f: File, pos: types::file::Position) -> &'a [u8]
    ensures { AskedPart s.entry (ask_rule s.now f f.commits pos.0) (f.cdat + pos.0 * (f.width + 16)) f.width result }
{
    match Fit::asked(s, f, f.commits, pos.0) {
        Ok(fit) => part(fit.rows(), (pos.0 as usize) * (f.width + 16), f.width, 1),
        Err(_) => &s[..0],
    }
}
