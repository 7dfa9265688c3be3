// One commit of a file tried: the rules of its entry, then its row. What a traversal and a verification share.
#![tactic(auto)]

ghost use Rattle.std.specs.Prelude.{◌≡◌, ◌<◌};
ghost use Rattle.types.specs.Said.{Answers};
ghost use Rattle.ancestry.specs.Counts.{key_of};
ghost use Rattle.commit.specs.Said.{asked_said};
ghost use Rattle.tries.specs.Tries.{row_in, told};

use commit::{Commit, commit_in};
use rules::entry_in;
use types::file::Position;
use types::refusal::{Reason, Refusal};

// How many parents a commit that is not refused has, and its generation.
#[derive(Clone, Copy)]
pub struct Tried {
    pub parents: usize,
    pub generation: u32,
}

// A commit that is refused has no parents and no generation.
#[tactic(auto, unfolding(words::specs::First::refuse))]
pub fn stopped(reason: Reason) -> Result<Tried, Reason>
    ensures { result ≡ told (Err reason) 0 0 }
{
    Err(reason)
}

// The key of a number of parents among the counts.
#[tactic(auto, using(words::proofs::Rows::rows), unfolding(ancestry::specs::Counts::key_of))]
pub fn key(n: usize) -> usize
    ensures { (result ≡ key_of n) × (result < 66) }
{
    n.min(65)
}

// Refusals 64 to 67 of entry `c` of the chunks OIDF, OIDL and CDAT, by their own parts; else its row.
#[tactic(auto, using(types::proofs::Saying::answers), unfolding(crate::specs::Tries::row_in, words::specs::First::refuse))]
pub fn row_in(fan: &[u8], ids: &[u8], rows: &[u8], w: usize, c: u32) -> Result<Commit, Refusal>
    ensures { Answers asked_said result (row_in w fan.now ids.now rows.now c) }
{
    entry_in(fan, ids, rows, w, c)?;
    commit_in(rows, w, Position(c))
}
