// Ids of one file: at a position, of its bases, and the position of an id.
#![tactic(auto)]

ghost use Rattle.std.specs.Prelude.{◌≡◌, ◌+◌, ◌*◌, ◌<◌, length, Ok};
ghost use Rattle.access.specs.Said.{asking_said, found_said};
ghost use Rattle.types.specs.Said.{Answers};
ghost use Rattle.types.specs.Refusals.{refused_at};
ghost use Rattle.words.specs.Big.{number};
ghost use Rattle.fit.specs.Fits.{ask_rule, AskedPart};
ghost use Rattle.access.specs.Lookup.{key_of, lower, halving, lookup_of, Right};

use file::File;
use fit::ask;
use fit::parts::Fit;
use order::compare;
use std::cmp::Ordering;
use types::file::Position;
use types::refusal;
use types::refusal::{Reason, Refusal};
use words::big::be32;
use words::part::part;

// The id of a commit: the part of `s` that stores it, itself and no copy. Empty where `which` refuses.
pub fn id_at<'a>(s: &'a [u8], f: File, pos: Position) -> &'a [u8]
    ensures { AskedPart s.entry (ask_rule s.now f f.commits pos.0) (f.oidl + pos.0 * f.width) f.width result }
{
    match Fit::asked(s, f, f.commits, pos.0) {
        Ok(fit) => part(fit.ids(), (pos.0 as usize) * f.width, f.width, 1),
        Err(_) => &s[..0],
    }
}

// The id of base `j`, likewise. Empty where `which_base` refuses.
pub fn base_at<'a>(s: &'a [u8], f: File, j: u32) -> &'a [u8]
    ensures { AskedPart s.entry (ask_rule s.now f f.bases j) (f.base + j * f.width) f.width result }
{
    match Fit::asked(s, f, f.bases as u32, j) {
        Ok(fit) => part(fit.base(), (j as usize) * f.width, f.width, 1),
        Err(_) => &s[..0],
    }
}

// Which refusal the id of a commit meets.
pub fn which(s: &[u8], f: File, pos: Position) -> Result<(), Refusal>
    ensures { Answers asking_said result (refused_at (ask_rule s.now f f.commits pos.0) 0) }
{
    ask(s, f, f.commits, pos.0)?;
    Ok(())
}

// Which refusal a base id meets.
pub fn which_base(s: &[u8], f: File, j: u32) -> Result<(), Refusal>
    ensures { Answers asking_said result (refused_at (ask_rule s.now f f.bases j) 0) }
{
    ask(s, f, f.bases as u32, j)?;
    Ok(())
}

// The fan entry before `b`: the first position of its bucket.
#[tactic(auto, using(crate::proofs::Halving::lower_zero, crate::proofs::Halving::lower_is))]
fn low(fan: &[u8], b: u8) -> u32
    ensures { result ≡ lower fan.now b }
{
    if b == 0 {
        return 0;
    }
    be32(fan, 4 * ((b as usize) - 1))
}

// The position of `x` among the ids from `from` up to `to`, by halving. By hand: the ids are bytes and no slice of items, and `halving` promises its
// turns on unsorted ids too, of which `binary_search_by` says nothing.
#[tactic(auto, using(crate::proofs::Halving::halves, types::proofs::Widths::small_product), unfolding(crate::specs::Lookup::key_of))]
fn halve(ids: &[u8], x: &[u8], from: u32, to: u32) -> Option<Position>
    requires { length x.now < 1000 }
    ensures { Ok result ≡ halving (key_of (length x.now) ids.now) (number x.now) from to }
{
    let w = x.len();
    let mut lo = from;
    let mut hi = to;
    while lo < hi {
        let m = lo + (hi - lo) / 2;
        match compare(x, ids, (m as usize) * w) {
            Ordering::Less => {
                hi = m;
            }
            Ordering::Equal => {
                return Some(Position(m));
            }
            Ordering::Greater => {
                lo = m + 1;
            }
        }
    }
    None
}

// The fan's bounds and halving, on unsorted ids too.
#[tactic(auto, using(crate::proofs::Looks::looks))]
fn search(s: &[u8], f: File, x: &[u8]) -> Result<Option<Position>, Refusal>
    ensures { result ≡ lookup_of s.now f x.now }
{
    let fit = Fit::of(s, f)?;
    if x.len() != f.width {
        return Err(refusal::at(Reason::IdWidth, 0));
    }
    let fan = fit.fan();
    let b = x[0];
    let to = be32(fan, 4 * (b as usize));
    if f.commits < to {
        return Err(refusal::at(Reason::Position, 0));
    }
    Ok(halve(fit.ids(), x, low(fan, b), to))
}

// The position of the id `x`.
pub fn lookup(s: &[u8], f: File, x: &[u8]) -> Result<Option<Position>, Refusal>
    ensures is { Answers found_said result (lookup_of s.now f x.now) }
    ensures right { Right s.now f x.now result }
{
    search(s, f, x)
}
