// The walk over a commit's parents in a chain: a step that takes the walk and hands it back, and one that changes it in place.
#![tactic(auto)]

pub mod listing;

ghost use Rattle.walk.specs.Said.{step_said};
ghost use Rattle.types.specs.Said.{Answers};
ghost use Rattle.walk.specs.Walks.{step_of, ByDoor};

use graph::locate::{locate, of_file};
use parents::step_at;
use steps::{Parent, Phase};
use types::graph::Position;
use types::refusal::Refusal;
use words::part::part;

#[derive(Clone, Copy)]
pub struct Walk {
    pub commit: Position,
    pub phase: Phase,
}

// What a step of a walk answers, a parent or the end (`None`), and the walk after it.
#[derive(Clone, Copy)]
pub struct Step {
    pub answer: Result<Option<Parent>, Refusal>,
    pub next: Walk,
}

impl Walk {
    // The next parent, a refusal or the end, and the walk after it. A refusal ends the walk.
    pub fn step(self, chain: &[u8], list: &[u8]) -> Step
        ensures { Answers step_said result (step_of 32 chain.now list.now self) }
    {
        match locate(chain, list, self.commit) {
            Err(r) => Step {
                answer: Err(r),
                next: Walk {
                    commit: self.commit,
                    phase: Phase::Exhausted,
                },
            },
            Ok(spot) => {
                let s = part(chain, spot.start, spot.size, 1);
                let x = step_at(s, spot.inner, spot.pos, self.phase);
                Step {
                    answer: x.answer.map_err(|r| of_file(spot.file, r)),
                    next: Walk {
                        commit: self.commit,
                        phase: x.next,
                    },
                }
            }
        }
    }
}

// The second door: the caller's walk is changed in place.
pub fn next_parent(walk: &mut Walk, chain: &[u8], list: &[u8]) -> Result<Option<Parent>, Refusal>
    ensures { ByDoor chain.now list.now walk.old result walk.new }
{
    let s = walk.step(chain, list);
    *walk = s.next;
    s.answer
}

// A caller of the second door with plain parameters: the walk is kept in a local, and lent.
pub fn through_door(from: Walk, chain: &[u8], list: &[u8]) -> Step
    ensures { Answers step_said result (step_of 32 chain.now list.now from) }
{
    let mut w = from;
    let answer = next_parent(&mut w, chain, list);
    Step { answer, next: w }
}
