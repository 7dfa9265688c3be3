// Verification of a chain: every file and every commit, the first refusal, or what the commits add up to.
#![tactic(auto)]

mod commits;
mod heads;
mod meets;
mod tables;

ghost use Rattle.std.specs.Prelude.{◌≡◌, ◌<◌};
ghost use Rattle.list.specs.List.{records_of};
ghost use Rattle.ancestry.specs.Graph.{length_of};
ghost use Rattle.audit.specs.Rules.{length_by, accepted_by, refused_by, verify_from, verification};
ghost use Rattle.audit.specs.Said.{verification_said};
ghost use Rattle.audit.specs.Scans.{Tabled, Before, FileAs, total_by, sound_by};
ghost use Rattle.types.specs.Said.{Answers};

use commits::{Tally, scan};
use file::init::open;
use graph::locate::of_file;
use heads::head;
use list::check;
use tables::{Row, survey};
use types::refusal::Refusal;
use words::part::part;

// The length of the longest run of parent steps, or that some commit is its own ancestor. An enum: `None` would not say that.
#[derive(Clone, Copy)]
pub enum Length {
    Steps(u32),
    Cyclic,
}

#[derive(Clone, Copy)]
pub struct Summary {
    pub commits: u32,
    pub length: Length,
}

// The counts are of commits with 0 to 64 parents, and with more; all 0 on refusal.
#[derive(Clone, Copy)]
pub struct Verification {
    pub verdict: Result<Summary, Refusal>,
    pub counts: [u32; 66],
}

fn refused(r: Refusal) -> Verification
    ensures { result ≡ refused_by r }
{
    Verification {
        verdict: Err(r),
        counts: [0u32; 66],
    }
}

// The length that a highest generation gives.
#[tactic(auto, unfolding(ancestry::specs::Graph::length_of, crate::specs::Rules::length_by))]
fn measure(h: u32) -> Length
    ensures { result ≡ length_by (length_of h) }
{
    if h == 1_073_741_823 {
        return Length::Cyclic;
    }
    Length::Steps(h.saturating_sub(1))
}

// File `i`, with the tally of the files before it.
fn verify_file(
    chain: &[u8],
    list: &[u8],
    z: u32,
    table: &[Row],
    i: u32,
    before: Tally,
) -> Result<Tally, Refusal>
    requires tabled { Tabled z chain.now list.now table.now }
    requires i_bound { (i < records_of z list.now) × Before z chain.now list.now i before }
    ensures { FileAs z chain.now list.now i result }
{
    let k = i as usize;
    let start = table[k].start;
    let s = part(chain, start, table[k + 1].start - start, 1);
    let f = open(s)?;
    head(chain, list, z, table, i, s, f)?;
    scan(chain, table, k, s, f, before)
}

// Each of the `n` files in turn.
fn verify_files(chain: &[u8], list: &[u8], z: u32, n: u32, table: &[Row]) -> Result<Tally, Refusal>
    requires tabled { Tabled z chain.now list.now table.now }
    requires n_value { n ≡ records_of z list.now }
    ensures { total_by z chain.now list.now result ≡ verify_from z chain.now list.now n 0 }
{
    let mut tally = Tally {
        counts: [0u32; 66],
        highest: 0,
    };
    for i in 0..n {
        tally = verify_file(chain, list, z, table, i, tally).map_err(|r| of_file(i, r))?;
    }
    Ok(tally)
}

// The answer for a chain without refusal.
fn accepted(commits: usize, tally: Tally) -> Verification
    requires { commits < 4294967296 }
    ensures { result ≡ accepted_by commits tally.highest tally.counts }
{
    let counts = tally.counts;
    Verification {
        verdict: Ok(Summary {
            commits: commits as u32,
            length: measure(tally.highest),
        }),
        counts,
    }
}

// The list, the table of the files, and each file.
fn sound(chain: &[u8], list: &[u8]) -> Result<Verification, Refusal>
    ensures { sound_by result ≡ verification 32 chain.now list.now }
{
    check(list, chain.len())?;
    let n = (list.len() / 32) as u32;
    let table = survey(chain, list, 32, n)?;
    let tally = verify_files(chain, list, 32, n, &table)?;
    Ok(accepted(table[n as usize].first, tally))
}

// Verifies a chain. What the answer comes to is said by `verify`.
#[tactic(auto, unfolding(crate::specs::Scans::sound_by))]
pub fn audit(chain: &[u8], list: &[u8]) -> Verification
    ensures { Answers verification_said result (verification 32 chain.now list.now) }
{
    match sound(chain, list) {
        Ok(verification) => verification,
        Err(refusal) => refused(refusal),
    }
}
