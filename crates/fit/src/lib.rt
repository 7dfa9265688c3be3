// Whether a file's record fits the bytes it is used with. A record may be forged, or of another file.
#![tactic(auto)]

pub mod parts;

ghost use Rattle.std.specs.Prelude.{◌≡◌};
ghost use Rattle.words.specs.Part.{fits};
ghost use Rattle.chunk.specs.Index.{start_of, size_of};
ghost use Rattle.fit.specs.Fits.{fit_rule, ask_rule};

use chunk::{Span, size, start};
use file::File;
use types::refusal::Reason;
use types::width::known;
use words::part::room;

// A chunk lies within `n` bytes.
fn within(n: usize, c: Option<Span>) -> bool
    ensures { result ≡ fits n (start_of c) (size_of c) 1 }
{
    room(n, start(c), size(c), 1)
}

// Refusal 40 of a record that does not fit.
#[tactic(auto, using(words::proofs::Rows::rows, types::proofs::Widths::width_bounds), unfolding(crate::specs::Fits::fit_rule))]
pub fn fit(s: &[u8], f: File) -> Result<(), Reason>
    ensures { result ≡ fit_rule s.now f }
{
    let n = f.commits as usize;
    let w = f.width;
    if !known(w)
        || !room(s.len(), f.oidf, 256, 4)
        || !room(s.len(), f.oidl, n, w)
        || !room(s.len(), f.cdat, n, w + 16)
        || !within(s.len(), f.edge)
        || !room(s.len(), f.base, f.bases as usize, w)
    {
        return Err(Reason::Position);
    }
    Ok(())
}

// Refusal 40 of a question on record `i` of `n`.
pub fn ask(s: &[u8], f: File, n: u32, i: u32) -> Result<(), Reason>
    ensures { result ≡ ask_rule s.now f n i }
{
    fit(s, f)?;
    if n <= i {
        return Err(Reason::Position);
    }
    Ok(())
}
