// The phase of a walk, from a record's numbers.
ghost use Rattle.types.specs.Said.{Answers};
ghost use Rattle.steps.specs.Said.{phase_of, phase_said};

use steps::Phase;

// The phase of a number: 0 first, 1 second, 2 EDGE, any other exhausted.
pub fn phase_of(kind: u8, k: usize) -> Phase
    ensures { Answers phase_said result (phase_of kind k) }
{
    steps::phase_of(u32::from(kind), k)
}
