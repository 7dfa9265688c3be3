// The parent list: a commit's parents written into a lent list.
ghost use Rattle.std.specs.Prelude.{◌≡◌, length};
ghost use Rattle.parents.specs.Said.{total_said};
ghost use Rattle.types.specs.Said.{Answers};
ghost use Rattle.steps.specs.Walks.{shown, first_walk, positions};
ghost use Rattle.parents.specs.Lists.{overlay, list_of, held_of};

use super::count;
use commit::{ParentEdge, commit_at};
use file::File;
use fit::parts::Fit;
use steps::{Phase, step_in};
use types::file::Position;
use types::refusal;
use types::refusal::{Reason, Refusal};

// Writes the parents of a commit with these two parent words over the front of `out`, as many as it has room for.
fn fill_in(first: ParentEdge, second: ParentEdge, edge: Option<&[u8]>, out: &mut [u32])
    ensures { out.new ≡ overlay (positions (first_walk first second (shown edge.entry))) out.old }
{
    let mut phase = Phase::First;
    for entry in out {
        let step = step_in(first, second, edge, phase);
        let Ok(Some(parent)) = step.met else {
            return;
        };
        *entry = parent.position.0;
        phase = step.phase;
    }
}

// The parents of a file's commit into `out`, and how many; on refusal nothing is written. Counted first, so that a refusal is known before.
pub fn list_at(s: &[u8], f: File, pos: Position, out: &mut [u32]) -> Result<usize, Refusal>
    ensures answer { Answers total_said result (list_of s.now f pos.0 (length out.old)) }
    ensures holds { out.new ≡ held_of s.now f pos.0 out.old }
{
    let c = commit_at(s, f, pos)?;
    let e = Fit { bytes: s, file: f }.edge();
    let n = count(pos.0, c, e)?;
    if out.len() < n {
        return Err(refusal::at(Reason::ListFull, pos.0 as u64));
    }
    fill_in(c.first, c.second, e, out);
    Ok(n)
}
