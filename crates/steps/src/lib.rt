// The walk over two parent words and an EDGE chunk: one step from a phase to the next, and how many parents there are.
#![tactic(auto)]

ghost use Rattle.std.specs.Prelude.{◌≡◌};
ghost use Rattle.types.specs.Said.{Answers};
ghost use Rattle.steps.specs.Said.{phase_of, next_said, counted_said, phase_said};
ghost use Rattle.steps.specs.Walks.{
  shown,
  extra_of,
  stop,
  done,
  onward,
  edge_next,
  second_next,
  first_next,
  next_of,
  count_of,
};

use commit::ParentEdge;
use types::graph::Position;
use types::refusal::Reason;
use words::big::be32;

// An EDGE word: a position with more to follow, or the last.
#[derive(Clone, Copy)]
pub enum ExtraEdge {
    Internal(Position),
    Last(Position),
}

// Where a walk stands: before the first parent, before the second, before an EDGE number, or at its end.
#[derive(Clone, Copy)]
pub enum Phase {
    First,
    Second,
    Edge(usize),
    Exhausted,
}

#[derive(Clone, Copy)]
pub struct Parent {
    pub position: Position,
}

// What a step meets, a parent or the end (`None`), and the phase after it.
#[derive(Clone, Copy)]
pub struct Next {
    pub met: Result<Option<Parent>, Reason>,
    pub phase: Phase,
}

// The phase of a number and an EDGE number; a number that is none of a phase counts as exhausted.
#[tactic(auto, using(words::proofs::Rows::rows, types::proofs::Saying::answers), unfolding(crate::specs::Said::phase_of))]
pub fn phase_of(kind: u32, k: usize) -> Phase
    ensures { Answers phase_said result (phase_of kind k) }
{
    match kind {
        0 => Phase::First,
        1 => Phase::Second,
        2 => Phase::Edge(k),
        _ => Phase::Exhausted,
    }
}

#[tactic(auto, using(words::proofs::Rows::rows), unfolding(crate::specs::Walks::extra_of))]
fn extra_edge(raw: u32) -> ExtraEdge
    ensures { result ≡ extra_of raw }
{
    if 0x8000_0000 <= raw {
        return ExtraEdge::Last(Position(raw - 0x8000_0000));
    }
    ExtraEdge::Internal(Position(raw))
}

fn refused(reason: Reason) -> Next
    ensures { result ≡ stop reason }
{
    Next {
        met: Err(reason),
        phase: Phase::Exhausted,
    }
}

fn ended() -> Next
    ensures { result ≡ done }
{
    Next {
        met: Ok(None),
        phase: Phase::Exhausted,
    }
}

fn went(position: Position, phase: Phase) -> Next
    ensures { result ≡ onward position phase }
{
    Next {
        met: Ok(Some(Parent { position })),
        phase,
    }
}

// A step at EDGE number `k`.
#[tactic(auto, using(words::proofs::Rows::rows), unfolding(crate::specs::Walks::edge_next, crate::specs::Walks::edge_rule, words::specs::First::refuse))]
fn edge_step(edge: Option<&[u8]>, k: usize) -> Next
    ensures { result ≡ edge_next (shown edge.entry) k }
{
    let Some(bytes) = edge else {
        return refused(Reason::EdgeMissing);
    };
    if bytes.len().div_ceil(4) <= k {
        return refused(Reason::EdgeOut);
    }
    if bytes.len() < 4 * k + 4 {
        return refused(Reason::EdgeCut);
    }
    match extra_edge(be32(bytes, 4 * k)) {
        ExtraEdge::Last(p) => went(p, Phase::Exhausted),
        ExtraEdge::Internal(p) => went(p, Phase::Edge(k + 1)),
    }
}

#[tactic(auto, unfolding(crate::specs::Walks::second_next))]
fn second_step(second: ParentEdge, edge: Option<&[u8]>) -> Next
    ensures { result ≡ second_next (shown edge.entry) second }
{
    match second {
        ParentEdge::None => ended(),
        ParentEdge::GraphPosition(p) => went(p, Phase::Exhausted),
        ParentEdge::ExtraEdgeIndex(k) => edge_step(edge, k as usize),
    }
}

#[tactic(auto, unfolding(crate::specs::Walks::first_next, crate::specs::Walks::alone_next))]
fn first_step(first: ParentEdge, second: ParentEdge) -> Next
    ensures { result ≡ first_next first second }
{
    match (first, second) {
        (ParentEdge::None, ParentEdge::None) => ended(),
        (ParentEdge::None, _) => refused(Reason::SecondAlone),
        (ParentEdge::GraphPosition(p), _) => went(p, Phase::Second),
        (ParentEdge::ExtraEdgeIndex(_), _) => refused(Reason::FirstEdge),
    }
}

// One step of a commit with these two parent words, by the EDGE chunk's own part, where there is one.
#[tactic(auto, using(types::proofs::Saying::answers), unfolding(crate::specs::Walks::next_of))]
pub fn step_in(first: ParentEdge, second: ParentEdge, edge: Option<&[u8]>, phase: Phase) -> Next
    ensures { Answers next_said result (next_of first second (shown edge.entry) phase) }
{
    match phase {
        Phase::First => first_step(first, second),
        Phase::Second => second_step(second, edge),
        Phase::Edge(k) => edge_step(edge, k),
        Phase::Exhausted => ended(),
    }
}

// How many parents the walk meets, or the refusal it meets. A `loop`: only the walk itself says how many steps it has, so there is no range.
pub fn count_in(first: ParentEdge, second: ParentEdge, edge: Option<&[u8]>) -> Result<usize, Reason>
    ensures { Answers counted_said result (count_of first second (shown edge.entry)) }
{
    let mut phase = Phase::First;
    let mut n = 0;
    loop {
        let step = step_in(first, second, edge, phase);
        match step.met? {
            None => return Ok(n),
            Some(_) => n += 1,
        }
        phase = step.phase;
    }
}
