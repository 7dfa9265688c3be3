// The parents of a commit: the whole walk, and single steps.
use cases::step::phase_of;
use prints::print::{number, print, refusal};
use prints::step::{answer, phase};
use steps::Phase;
use types::graph::Position;
use walk::{Step, Walk, through_door};
use words::big::{be32, be64};

// Prints the parents of a commit, then a dot, or the refusal behind those that were met. The turns are counted, for no contract says that they end.
pub fn walk(chain: &[u8], list: &[u8], commit: Position) {
    let mut at = Walk {
        commit,
        phase: Phase::First,
    };
    for _ in 0..u64::MAX {
        let x = at.step(chain, list);
        match x.answer {
            Ok(Some(p)) => number(u64::from(p.position.0)),
            Ok(None) => {
                print(b" .");
                return;
            }
            Err(r) => {
                print(b" ");
                refusal(r);
                return;
            }
        }
        at = x.next;
    }
}

// Prints where a walk stands.
fn stands(w: Walk) {
    print(b" walk");
    number(u64::from(w.commit.0));
    phase(w.phase);
}

// Prints a step: what it answers, and the walk after it.
fn stepped(x: Step) {
    answer(x.answer);
    stands(x.next);
}

// Prints the line of a step: by value, then through the second door.
fn step(chain: &[u8], list: &[u8], from: Walk) {
    stepped(from.step(chain, list));
    print(b" door ");
    stepped(through_door(from, chain, list));
    print(b"\n");
}

// Prints a line for each step that is asked: a position (4 bytes), a phase (1) and an EDGE number (8).
pub fn steps(chain: &[u8], list: &[u8], asked: &[u8]) {
    for question in asked.chunks_exact(13) {
        let commit = Position(be32(question, 0));
        let phase = phase_of(question[4], be64(question, 5) as usize);
        step(chain, list, Walk { commit, phase });
    }
}
