// The commits of one file of a chain in turn: the first refusal, and what they add to the counts and the highest generation.
ghost use Rattle.std.specs.Prelude.{◌≡◌, ◌+◌, min, Ok};
ghost use Rattle.ancestry.specs.Graph.{cap};
ghost use Rattle.file.specs.Table.{opening};
ghost use Rattle.steps.specs.Walks.{shown};
ghost use Rattle.audit.specs.Scans.{part_by, Home, TriedAs, Starts, ScansAs};

use super::meets::meet;
use super::tables::Row;
use commit::Commit;
use file::File;
use fit::parts::Fit;
use tries::{Tried, key, row_in, stopped};
use types::refusal;
use types::refusal::{Reason, Refusal};

// What the commits of some files come to: how many have each number of parents, and their highest generation.
#[derive(Clone, Copy)]
pub struct Tally {
    pub counts: [u32; 66],
    pub highest: u32,
}

// One more than the highest among the parents', or the cap.
fn right(h: u32) -> u32
    ensures { result ≡ min (1 + h) cap }
{
    h.saturating_add(1).min(1_073_741_823)
}

// A commit of file `i`, whose row was answered: its parents, and 69.
fn attempt(
    chain: &[u8],
    table: &[Row],
    i: usize,
    row: Result<Commit, Refusal>,
    edge: Option<&[u8]>,
) -> Result<Tried, Reason>
    requires { Home chain.now table.now i }
    ensures { TriedAs chain.now table.now i row (shown edge.entry) result }
{
    let commit = match row {
        Ok(commit) => commit,
        Err(refusal) => return stopped(refusal.reason),
    };
    let met = match meet(chain, table, i, commit.first, commit.second, edge) {
        Ok(met) => met,
        Err(reason) => return stopped(reason),
    };
    if commit.generation != right(met.highest) {
        return stopped(Reason::Generation);
    }
    Ok(Tried {
        parents: met.parents,
        generation: commit.generation,
    })
}

// The commits of file `i`, which is `s` with the record `f`; the tally goes on from that of the files before.
pub(crate) fn scan(
    chain: &[u8],
    table: &[Row],
    i: usize,
    s: &[u8],
    f: File,
    before: Tally,
) -> Result<Tally, Refusal>
    requires starts { Starts chain.now table.now i before }
    requires s_value { (s.now ≡ part_by chain.now table.now i) × (opening s.now ≡ Ok f) }
    ensures { ScansAs chain.now table.now i before result }
{
    let fit = Fit { bytes: s, file: f };
    let fan = fit.fan();
    let ids = fit.ids();
    let rows = fit.rows();
    let edge = fit.edge();
    let mut tally = before;
    for k in 0..f.commits {
        let row = row_in(fan, ids, rows, f.width, k);
        let tried = attempt(chain, table, i, row, edge).map_err(|reason| refusal::at(
            reason, k as u64,
        ))?;
        tally.counts[key(tried.parents)] += 1;
        tally.highest = tally.highest.max(tried.generation);
    }
    Ok(tally)
}
