// A commit.
#![tactic(auto, unfolding(crate::specs::Images::flat_commit))]

ghost use Rattle.std.specs.Prelude.{◌≡◌};
ghost use Rattle.commit.specs.Said.{edge_kind, edge_word};
ghost use Rattle.flat.specs.Images.{flat_commit};

use super::Commit;
use commit::ParentEdge;
use types::refusal::Refusal;

fn edge_kind(e: ParentEdge) -> u32
    ensures { result ≡ edge_kind e }
{
    match e {
        ParentEdge::None => 0,
        ParentEdge::GraphPosition(_) => 1,
        ParentEdge::ExtraEdgeIndex(_) => 2,
    }
}

fn edge_word(e: ParentEdge) -> u32
    ensures { result ≡ edge_word e }
{
    match e {
        ParentEdge::None => 0,
        ParentEdge::GraphPosition(p) => p.0,
        ParentEdge::ExtraEdgeIndex(k) => k,
    }
}

// A commit, or the refusal in its place.
impl From<Result<commit::Commit, Refusal>> for Commit {
    ghost from_gives = { λ answer r. r ≡ flat_commit answer };

    fn from(answer: Result<commit::Commit, Refusal>) -> Commit {
        match answer {
            Ok(c) => Commit {
                time: c.time,
                generation: c.generation,
                first_kind: edge_kind(c.first),
                first: edge_word(c.first),
                second_kind: edge_kind(c.second),
                second: edge_word(c.second),
                ..Commit::default()
            },
            Err(r) => Commit {
                place: r.place,
                number: r.reason.number(),
                file: r.file,
                ..Commit::default()
            },
        }
    }
}
