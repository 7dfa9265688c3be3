// The commits of one file in turn: the first refusal, or what they add up to.
ghost use Rattle.std.specs.Prelude.{◌≡◌};
ghost use Rattle.fit.specs.Facts.{Opened};
ghost use Rattle.steps.specs.Walks.{shown};
ghost use Rattle.tries.specs.Tries.{Holds, parts_of};
ghost use Rattle.traverse.specs.Scans.{tried_of, lower_of, scanned_of};

use super::Summary;
use commit::Commit;
use file::File;
use fit::parts::Fit;
use steps::count_in;
use tries::{Tried, key, row_in, stopped};
use types::refusal;
use types::refusal::{Reason, Refusal};

// What the commits of a file add up to; the counts are of commits with 0 to 64 parents, and with more.
#[derive(Clone, Copy)]
pub struct Totals {
    pub summary: Summary,
    pub counts: [u32; 66],
}

// A commit, by how its row was answered: its walk.
#[tactic(auto, unfolding(crate::specs::Scans::tried_of, crate::specs::Scans::tried_by, words::specs::First::refuse))]
fn attempt(row: Result<Commit, Refusal>, edge: Option<&[u8]>) -> Result<Tried, Reason>
    ensures { result ≡ tried_of row (shown edge.entry) }
{
    match row {
        Ok(commit) => match count_in(commit.first, commit.second, edge) {
            Ok(parents) => Ok(Tried {
                parents,
                generation: commit.generation,
            }),
            Err(reason) => stopped(reason),
        },
        Err(refusal) => stopped(refusal.reason),
    }
}

// The lower of two generations; the first commit's stands alone.
#[tactic(auto, using(crate::proofs::Scanning::lower_first, crate::proofs::Scanning::lower_min))]
fn lower(c: u32, old: u32, g: u32) -> u32
    ensures { result ≡ lower_of c old g }
{
    if c == 0 { g } else { old.min(g) }
}

// The commits of a file, by its chunks' own parts.
fn scan(
    fan: &[u8],
    ids: &[u8],
    rows: &[u8],
    edge: Option<&[u8]>,
    w: usize,
    n: u32,
) -> Result<Totals, Refusal>
    requires { Holds (record { width = w; fan = fan.now; ids = ids.now; rows = rows.now; edge = shown edge }) n }
    ensures { result ≡ scanned_of (record { width = w; fan = fan.now; ids = ids.now; rows = rows.now; edge = shown edge.entry }) n }
{
    let mut counts = [0u32; 66];
    let mut highest = 0u32;
    let mut lowest = 0;
    let mut most = 0usize;
    for c in 0..n {
        let row = row_in(fan, ids, rows, w, c);
        let tried = attempt(row, edge).map_err(|reason| refusal::at(reason, c as u64))?;
        counts[key(tried.parents)] += 1;
        lowest = lower(c, lowest, tried.generation);
        highest = highest.max(tried.generation);
        most = most.max(tried.parents);
    }
    Ok(Totals {
        summary: Summary {
            commits: n,
            highest,
            lowest,
            most,
        },
        counts,
    })
}

// Each commit of an opened file.
pub(crate) fn commits(s: &[u8], f: File) -> Result<Totals, Refusal>
    requires { Opened s.now f }
    ensures { result ≡ scanned_of (parts_of s.now f) f.commits }
{
    let fit = Fit { bytes: s, file: f };
    scan(
        fit.fan(),
        fit.ids(),
        fit.rows(),
        fit.edge(),
        f.width,
        f.commits,
    )
}
