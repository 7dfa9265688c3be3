// A file's commit: one step over its parents, and how many there are.
#![tactic(auto)]

pub mod listing;

ghost use Rattle.std.specs.Prelude.{◌≡◌};
ghost use Rattle.parents.specs.Said.{step_said, total_said};
ghost use Rattle.types.specs.Said.{Answers};
ghost use Rattle.types.specs.Refusals.{refused_at};
ghost use Rattle.steps.specs.Walks.{shown, count_of};
ghost use Rattle.parents.specs.Walks.{step_by, step_of, total_of};

use commit::{Commit, commit_at};
use file::File;
use fit::parts::Fit;
use steps::{Next, Parent, Phase, count_in, step_in};
use types::refusal;
use types::refusal::Refusal;

// What a step of a file's commit answers, a parent or the end (`None`), and the phase after it.
#[derive(Clone, Copy)]
pub struct Step {
    pub answer: Result<Option<Parent>, Refusal>,
    pub next: Phase,
}

// What a step met, with the commit as place.
fn placed(i: u32, x: Next) -> Step
    ensures { result ≡ step_by i x }
{
    Step {
        answer: x.met.map_err(|reason| refusal::at(reason, i as u64)),
        next: x.phase,
    }
}

// One step of a file's commit. A phase may be forged: every EDGE number has its answer.
pub fn step_at(s: &[u8], f: File, pos: types::file::Position, phase: Phase) -> Step
    ensures { Answers step_said result (step_of s.now f pos.0 phase) }
{
    match commit_at(s, f, pos) {
        Err(r) => Step {
            answer: Err(r),
            next: Phase::Exhausted,
        },
        Ok(c) => {
            let edge = Fit { bytes: s, file: f }.edge();
            placed(pos.0, step_in(c.first, c.second, edge, phase))
        }
    }
}

// How many parents commit `i` has, by its row and the EDGE chunk's part; a refusal has the commit as place.
pub(crate) fn count(i: u32, c: Commit, edge: Option<&[u8]>) -> Result<usize, Refusal>
    ensures { result ≡ refused_at (count_of c.first c.second (shown edge.entry)) i }
{
    count_in(c.first, c.second, edge).map_err(|reason| refusal::at(reason, i as u64))
}

// How many parents a file's commit has, or the refusal that its walk meets.
pub fn count_at(s: &[u8], f: File, pos: types::file::Position) -> Result<usize, Refusal>
    ensures { Answers total_said result (total_of s.now f pos.0) }
{
    let c = commit_at(s, f, pos)?;
    count(pos.0, c, Fit { bytes: s, file: f }.edge())
}
