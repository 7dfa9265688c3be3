// One pass over the files of a chain: each is opened once, and the one that has a position is kept.
ghost use Rattle.std.specs.Prelude.{◌≡◌, ◌<◌};
ghost use Rattle.graph.specs.Chain.{Listed, part_at};
ghost use Rattle.graph.specs.Passes.{kept_of, Surveyed};
ghost use Rattle.words.specs.Sums.{before};
ghost use Rattle.list.specs.List.{length_at};

use super::init::open_file;
use super::locate::Spot;
use file::File;
use list::length_at;
use types::file::Position;
use types::refusal::Refusal;
use words::part::part;

// The commits of all files, and where the position asked stands, if one of them has it.
#[derive(Clone, Copy)]
pub struct Survey {
    pub commits: u32,
    pub spot: Option<Spot>,
}

// The file `f` of `size` bytes that starts at `at` and has the positions from `sum` up to `next`, where `g` is one of them; else what was kept.
#[tactic(auto, using(crate::proofs::Passing::keeping))]
fn kept(
    old: Option<Spot>,
    g: u32,
    sum: u32,
    next: u32,
    k: u32,
    at: usize,
    size: usize,
    f: File,
) -> Option<Spot>
    ensures { result ≡ kept_of old g sum next k at size f }
{
    if g < sum || next <= g {
        return old;
    }
    Some(Spot {
        file: k,
        start: at,
        size,
        pos: Position(g - sum),
        inner: f,
    })
}

// File `k`, which starts at `at`.
pub(crate) fn file_at<'a, 'b>(
    chain: &'a [u8],
    list: &'b [u8],
    z: u32,
    n: u32,
    k: u32,
    at: usize,
) -> &'a [u8]
    requires listed { Listed z chain.now list.now n }
    requires k_lt_n { (k < n) × (at ≡ before (length_at z list.now) k) }
    ensures { result.now ≡ part_at z chain.now list.now k }
{
    part(chain, at, length_at(list, z, k) as usize, 1)
}

// Opens each of the `n` files.
pub(crate) fn pass(chain: &[u8], list: &[u8], z: u32, n: u32, g: u32) -> Result<Survey, Refusal>
    requires { Listed z chain.now list.now n }
    ensures { Surveyed z chain.now list.now n g result }
{
    let mut at = 0;
    let mut sum = 0;
    let mut spot = None;
    for k in 0..n {
        let s = file_at(chain, list, z, n, k, at);
        let f = open_file(k, s)?;
        let next = sum + f.commits;
        spot = kept(spot, g, sum, next, k, at, s.len(), f);
        sum = next;
        at += s.len();
    }
    Ok(Survey { commits: sum, spot })
}
