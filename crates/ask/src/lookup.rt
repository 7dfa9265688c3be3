// Lookup of an id in a chain: files in order, so that the oldest copy counts.
ghost use Rattle.std.specs.Prelude.{◌≡◌, ℕ, ◌+◌, ◌<◌};
ghost use Rattle.ask.specs.Said.{found_said};
ghost use Rattle.types.specs.Said.{Answers};
ghost use Rattle.access.specs.Lookup.{found, lookup_of as lookupIn};
ghost use Rattle.graph.specs.Chain.{Listed};
ghost use Rattle.ask.specs.Lookups.{noted_of, Looked, lookup_of};
ghost use Rattle.ask.specs.Theorems.{Right};

use access::lookup;
use file::File;
use graph::init::open_file;
use list::{check, length_at};
use types::graph::Position;
use types::refusal;
use types::refusal::{Reason, Refusal};
use words::part::part;

// What was seen; while nothing was, the file `f` with the bytes `s` is asked, whose first position is `sum`.
#[tactic(auto, unfolding(crate::specs::Lookups::noted_of, crate::specs::Lookups::note_file))]
fn noted(old: Option<Position>, sum: u32, s: &[u8], f: File, x: &[u8]) -> Option<Position>
    requires { (p : ℕ) → lookupIn s.now f x.now ≡ found p → sum + p < 4294967296 }
    ensures { result ≡ noted_of old sum (lookupIn s.now f x.now) }
{
    if old.is_some() {
        return old;
    }
    match lookup(s, f, x) {
        Ok(Some(p)) => Some(Position(sum + p.0)),
        _ => None,
    }
}

// Opens each of the `n` files, and looks for `x` in each until it is seen.
fn look(chain: &[u8], list: &[u8], z: u32, n: u32, x: &[u8]) -> Result<Option<Position>, Refusal>
    requires { Listed z chain.now list.now n }
    ensures { Looked z chain.now list.now n x.now result }
{
    let mut at = 0;
    let mut sum = 0;
    let mut hit = None;
    for k in 0..n {
        let s = part(chain, at, length_at(list, z, k) as usize, 1);
        let f = open_file(k, s)?;
        hit = noted(hit, sum, s, f, x);
        sum += f.commits;
        at += s.len();
    }
    Ok(hit)
}

// The position of the id `x`.
#[tactic(auto, using(crate::proofs::Exactly::finding))]
pub fn find(chain: &[u8], list: &[u8], x: &[u8]) -> Result<Option<Position>, Refusal>
    ensures is { Answers found_said result (lookup_of 32 chain.now list.now x.now) }
    ensures right { Right 32 chain.now list.now x.now result }
{
    check(list, chain.len())?;
    let n = (list.len() / 32) as u32;
    let hit = look(chain, list, 32, n, x)?;
    if x.len() != 20 {
        return Err(refusal::at(Reason::IdWidth, 0));
    }
    Ok(hit)
}
