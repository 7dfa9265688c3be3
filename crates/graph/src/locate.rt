// Where a position of a chain stands: its file, and the position in it.
ghost use Rattle.std.specs.Prelude.{◌≡◌};
ghost use Rattle.graph.specs.Said.{located_said};
ghost use Rattle.types.specs.Said.{Answers};
ghost use Rattle.graph.specs.Chain.{placed};
ghost use Rattle.graph.specs.Spots.{located};

use super::init::view;
use file::File;
use types::graph::Position;
use types::refusal::{Reason, Refusal, at};

// A position's file: its index, where it starts in the chain and how long it is; the position in it; and its record.
#[derive(Clone, Copy)]
pub struct Spot {
    pub file: u32,
    pub start: usize,
    pub size: usize,
    pub pos: types::file::Position,
    pub inner: File,
}

// The refusal of file `k`, in place of one file's.
pub fn of_file(k: u32, r: Refusal) -> Refusal
    ensures { result ≡ placed k r }
{
    Refusal {
        reason: r.reason,
        file: k,
        place: r.place,
    }
}

// Where a position stands.
#[tactic(auto, using(crate::proofs::Spots::locating))]
pub fn locate(chain: &[u8], list: &[u8], pos: Position) -> Result<Spot, Refusal>
    ensures { Answers located_said result (located 32 chain.now list.now pos.0) }
{
    let survey = view(chain, list, pos.0)?;
    survey.spot.ok_or(at(Reason::Position, 0))
}
