// Questions on a chain by position: ids, trees and commits.
#![tactic(auto, using(crate::proofs::Reading::asking))]

ghost use Rattle.commit.specs.Said.{asked_said};
ghost use Rattle.access.specs.Said.{asking_said};
ghost use Rattle.types.specs.Said.{Answers};
ghost use Rattle.graph.specs.Chain.{asked};
ghost use Rattle.ask.specs.Questions.{IdPart, TreePart, commit_of};

use commit::Commit;
use graph::locate::locate;
use types::graph::Position;
use types::refusal::Refusal;
use words::part::part;

// Which refusal the id or the tree at a position meets.
pub fn which(chain: &[u8], list: &[u8], pos: Position) -> Result<(), Refusal>
    ensures { Answers asking_said result (asked 32 chain.now list.now pos.0) }
{
    locate(chain, list, pos)?;
    Ok(())
}

// The id at a position: the part of the chain that stores it, itself and no copy. Empty where `which` refuses.
pub fn id_at<'a, 'b>(chain: &'a [u8], list: &'b [u8], pos: Position) -> &'a [u8]
    ensures { IdPart 32 chain.entry list.now pos.0 result }
{
    let Ok(spot) = locate(chain, list, pos) else {
        return &chain[0..0];
    };
    let s = part(chain, spot.start, spot.size, 1);
    access::id_at(s, spot.inner, spot.pos)
}

// The tree of the commit at a position, likewise.
pub fn tree_at<'a, 'b>(chain: &'a [u8], list: &'b [u8], pos: Position) -> &'a [u8]
    ensures { TreePart 32 chain.entry list.now pos.0 result }
{
    let Ok(spot) = locate(chain, list, pos) else {
        return &chain[0..0];
    };
    let s = part(chain, spot.start, spot.size, 1);
    commit::tree_at(s, spot.inner, spot.pos)
}

// The commit at a position: generation, time and both parent words.
pub fn commit_at(chain: &[u8], list: &[u8], pos: Position) -> Result<Commit, Refusal>
    ensures { Answers asked_said result (commit_of 32 chain.now list.now pos.0) }
{
    let spot = locate(chain, list, pos)?;
    let s = part(chain, spot.start, spot.size, 1);
    commit::commit_at(s, spot.inner, spot.pos)
}
