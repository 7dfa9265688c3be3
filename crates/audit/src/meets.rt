// The parents of a commit as its walk meets them: each in range, and the highest generation among them.
ghost use Rattle.std.specs.Prelude.{◌+◌, ◌*◌, ◌≤◌, ◌<◌, length};
ghost use Rattle.steps.specs.Walks.{first_walk, shown};
ghost use Rattle.audit.specs.Scans.{first_in, Home, GenAs, MetAs};

use super::tables::Row;
use commit::ParentEdge;
use steps::{Phase, step_in};
use types::refusal::Reason;
use words::big::be32;
use words::part::part;

// How a walk went: how many parents, and their highest generation.
#[derive(Clone, Copy)]
pub struct Met {
    pub parents: usize,
    pub highest: u32,
}

// The file of position `g`, by halving the first positions up to file `last`. By hand: most parents stand in the last file, which is tried first, and
// `partition_point` asks that all rows be in order, where these clauses ask for the two ends alone.
fn file_of(table: &[Row], last: usize, g: usize) -> usize
    requires { (last + 1 < length table.now) × (first_in table.now 0 ≤ g) × (g < first_in table.now (last + 1)) }
    ensures { (result ≤ last) × (first_in table.now result ≤ g) × (g < first_in table.now (result + 1)) }
{
    if table[last].first <= g {
        return last;
    }
    let mut lo = 0;
    let mut hi = last;
    while 1 < hi - lo {
        let mid = lo + (hi - lo) / 2;
        if table[mid].first <= g {
            lo = mid;
        } else {
            hi = mid;
        }
    }
    lo
}

// The generation of the commit at position `g`, which is not past file `home`.
fn gen_at(chain: &[u8], table: &[Row], home: usize, g: usize) -> u32
    requires home { Home chain.now table.now home }
    requires g_bound { g < first_in table.now (home + 1) }
    ensures { GenAs chain.now table.now home g result }
{
    let i = file_of(table, home, g);
    let row = table[i];
    let size = row.width + 16;
    let cdat = part(chain, row.cdat, table[i + 1].first - row.first, size);
    be32(cdat, (g - row.first) * size + row.width + 8) / 4
}

// The parents of a commit of file `home` with these two parent words. A `loop`, as in `steps::count_in`: only the walk says how many there are.
pub(crate) fn meet(
    chain: &[u8],
    table: &[Row],
    home: usize,
    first: ParentEdge,
    second: ParentEdge,
    edge: Option<&[u8]>,
) -> Result<Met, Reason>
    requires { Home chain.now table.now home }
    ensures { MetAs chain.now table.now home (first_walk first second (shown edge.entry)) result }
{
    let limit = table[home + 1].first;
    let mut phase = Phase::First;
    let mut parents = 0;
    let mut highest = 0;
    loop {
        let next = step_in(first, second, edge, phase);
        let Some(parent) = next.met? else {
            return Ok(Met { parents, highest });
        };
        let g = parent.position.0 as usize;
        if limit <= g {
            return Err(Reason::ParentOut);
        }
        highest = highest.max(gen_at(chain, table, home, g));
        parents += 1;
        phase = next.phase;
    }
}
