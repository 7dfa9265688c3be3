// A walk: its phase, and back, its steps, and how many parents it meets.
#![tactic(auto, unfolding(crate::specs::Images::flat_step, crate::specs::Images::flat_total))]

ghost use Rattle.std.specs.Prelude.{◌≡◌};
ghost use Rattle.steps.specs.Said.{phase_kind, phase_edge};
ghost use Rattle.flat.specs.Images.{flat_step, flat_stepped, flat_walked, walk_of, flat_total};

use super::{Step, Total};
use steps::{Parent, Phase, phase_of};
use types::graph::Position;
use types::refusal::Refusal;
use walk::Walk;

fn phase_kind(p: Phase) -> u32
    ensures { result ≡ phase_kind p }
{
    match p {
        Phase::First => 0,
        Phase::Second => 1,
        Phase::Edge(_) => 2,
        Phase::Exhausted => 3,
    }
}

fn phase_edge(p: Phase) -> usize
    ensures { result ≡ phase_edge p }
{
    let Phase::Edge(k) = p else {
        return 0;
    };
    k
}

// What a step answers, and the phase after it.
fn step_flat(answer: Result<Option<Parent>, Refusal>, next: Phase) -> Step
    ensures { result ≡ flat_step answer next }
{
    let end = Step {
        edge: phase_edge(next),
        kind: 2,
        phase: phase_kind(next),
        ..Step::default()
    };
    match answer {
        Ok(Some(p)) => Step {
            kind: 0,
            parent: p.position.0,
            ..end
        },
        Ok(None) => end,
        Err(r) => Step {
            place: r.place,
            number: r.reason.number(),
            file: r.file,
            kind: 1,
            ..end
        },
    }
}

// What a file's step answers, and the phase after it.
impl From<parents::Step> for Step {
    ghost from_gives = { λ step r. r ≡ flat_stepped step };

    fn from(step: parents::Step) -> Step {
        step_flat(step.answer, step.next)
    }
}

// What a walk's step answers, and the phase of the walk after it.
impl From<walk::Step> for Step {
    ghost from_gives = { λ step r. r ≡ flat_walked step };

    fn from(step: walk::Step) -> Step {
        step_flat(step.answer, step.next.phase)
    }
}

// The walk over the parents of the commit at a position.
pub fn walk_at(pos: u32, phase: u32, edge: usize) -> Walk
    ensures { result ≡ walk_of pos phase edge }
{
    Walk {
        commit: Position(pos),
        phase: phase_of(phase, edge),
    }
}

// How many parents, or the refusal in its place.
impl From<Result<usize, Refusal>> for Total {
    ghost from_gives = { λ answer r. r ≡ flat_total answer };

    fn from(answer: Result<usize, Refusal>) -> Total {
        match answer {
            Ok(count) => Total {
                count,
                ..Total::default()
            },
            Err(r) => Total {
                place: r.place,
                number: r.reason.number(),
                file: r.file,
                ..Total::default()
            },
        }
    }
}
