// For who looks at a file's bytes: where a parent was read, where a date stands, what is wrong with an entry, whether the trailer is right.
#![tactic(auto)]

ghost use Rattle.std.specs.Prelude.{◌≡◌, ◌^◌, ◌<◌};
ghost use Rattle.access.specs.Said.{asking_said};
ghost use Rattle.marks.specs.Said.{mark_said, checked_said};
ghost use Rattle.types.specs.Said.{Answers};
ghost use Rattle.steps.specs.declared.Phase.TheVariants.{Second};
ghost use Rattle.marks.specs.Marks.{field_at, edge_at, place_of, Meets, word_of, Read, date_of, entry_of, check_of};

use chunk::{Span, start};
use commit::{ParentEdge, commit_at};
use file::File;
use fit::ask;
use fit::parts::Fit;
use parents::step_at;
use rules::{entry_in, sum_in};
use steps::Phase;
use types::file::Position;
use types::refusal;
use types::refusal::{Reason, Refusal};

// Where the trailer stands, and whether it is the SHA-1 of all bytes before it.
#[derive(Clone, Copy)]
pub enum Checked {
    Right(Span),
    Wrong(Span),
}

// What stands `o` bytes behind the tree of commit `i`.
fn field(f: File, i: u32, o: usize) -> usize
    requires { (f.width < 1000) × (field_at f i o < 2 ^ 64) }
    ensures { result ≡ field_at f i o }
{
    let w = f.width;
    f.cdat + ((i as usize) * (w + 16) + (w + o))
}

// EDGE word `k`.
fn edge(f: File, k: usize) -> usize
    requires { edge_at f k < 2 ^ 64 }
    ensures { result ≡ edge_at f k }
{
    start(f.edge) + 4 * k
}

// The word that the step from second reads, where it answers a parent.
fn second(s: &[u8], f: File, pos: Position) -> usize
    requires { Meets s.now f pos.0 Second }
    ensures { result ≡ place_of s.now f pos.0 Second }
{
    let Ok(c) = commit_at(s, f, pos) else {
        return 0;
    };
    match c.second {
        ParentEdge::None => 0,
        ParentEdge::GraphPosition(_) => field(f, pos.0, 4),
        ParentEdge::ExtraEdgeIndex(k) => edge(f, k as usize),
    }
}

// The word that the step from a phase reads, where it answers a parent.
#[tactic(auto, unfolding(crate::specs::Marks::place_of))]
fn place(s: &[u8], f: File, pos: Position, phase: Phase) -> usize
    requires { Meets s.now f pos.0 phase }
    ensures { result ≡ place_of s.now f pos.0 phase }
{
    match phase {
        Phase::First => field(f, pos.0, 0),
        Phase::Second => second(s, f, pos),
        Phase::Edge(k) => edge(f, k),
        Phase::Exhausted => 0,
    }
}

// The word of the parent which the step from this phase answers, as the definition says.
#[tactic(auto, unfolding(crate::specs::Marks::word_of, crate::specs::Marks::mark_by))]
fn word(s: &[u8], f: File, pos: Position, phase: Phase) -> Result<Option<Span>, Refusal>
    ensures { result ≡ word_of s.now f pos.0 phase }
{
    if step_at(s, f, pos, phase).answer?.is_none() {
        return Ok(None);
    }
    let start = place(s, f, pos, phase);
    let end = start + 4;
    Ok(Some(Span { start, end }))
}

// The word that holds the parent which the step from this phase answers. Nothing where it answers the end.
pub fn word_at(s: &[u8], f: File, pos: Position, phase: Phase) -> Result<Option<Span>, Refusal>
    ensures is { Answers mark_said result (word_of s.now f pos.0 phase) }
    ensures read { Read s.now f pos.0 phase result }
{
    word(s, f, pos, phase)
}

// The 8 bytes that hold a commit's generation and time.
#[tactic(auto, using(crate::proofs::Ways::marking), unfolding(crate::specs::Marks::date_of, words::specs::First::refuse))]
pub fn date_at(s: &[u8], f: File, pos: Position) -> Result<Option<Span>, Refusal>
    ensures { Answers mark_said result (date_of s.now f pos.0) }
{
    ask(s, f, f.commits, pos.0)?;
    let start = field(f, pos.0, 8);
    let end = start + 8;
    Ok(Some(Span { start, end }))
}

// Which of 64 to 67 a commit meets, or 40 where there is no such commit.
#[tactic(auto, using(crate::proofs::Ways::entry_cut), unfolding(crate::specs::Marks::entry_of, words::specs::First::refuse))]
pub fn entry_at(s: &[u8], f: File, pos: Position) -> Result<(), Refusal>
    ensures { Answers asking_said result (entry_of s.now f pos.0) }
{
    let i = pos.0;
    let fit = Fit::asked(s, f, f.commits, i)?;
    entry_in(fit.fan(), fit.ids(), fit.rows(), f.width, i).map_err(|reason| refusal::at(
        reason, i as u64,
    ))
}

// The trailer of any bytes of a file's size, also where the file does not open.
#[tactic(auto, using(crate::proofs::Ways::trailing), unfolding(crate::specs::Marks::check_of, crate::specs::Marks::size_rule, words::specs::First::refuse))]
pub fn trailer(s: &[u8]) -> Result<Checked, Refusal>
    ensures { Answers checked_said result (check_of s.now) }
{
    let n = s.len();
    if 1073741824 < n {
        return Err(refusal::at(Reason::TooLarge, 0));
    }
    if n < 1100 {
        return Err(refusal::at(Reason::TooSmall, 0));
    }
    let start = n - 20;
    if sum_in(s, 20).is_err() {
        return Ok(Checked::Wrong(Span { start, end: n }));
    }
    Ok(Checked::Right(Span { start, end: n }))
}
