// The parents of a commit: the whole walk on one line, and a single step.
use file::File;
use parents::step_at;
use prints::print::{number, print, refusal};
use prints::step::{answer, phase};
use steps::Phase;
use types::file::Position;
use types::refusal::Refusal;

// Prints the parents of a commit, or the refusal behind those that were met, and hands back how the walk ended.
// No walk has as many parents as the file has bytes.
pub fn walk(s: &[u8], f: File, pos: Position) -> Result<usize, Refusal> {
    let mut from = Phase::First;
    for n in 0..s.len() {
        let x = step_at(s, f, pos, from);
        match x.answer {
            Ok(Some(p)) => number(u64::from(p.position.0)),
            Ok(None) => return Ok(n),
            Err(r) => {
                print(b" ");
                refusal(r);
                return Err(r);
            }
        }
        from = x.next;
    }
    Ok(s.len())
}

// Prints what one step answers, and the phase after it.
pub fn step(s: &[u8], f: File, pos: Position, from: Phase) {
    let x = step_at(s, f, pos, from);
    answer(x.answer);
    phase(x.next);
}
