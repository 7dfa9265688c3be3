// One file verified: its trailer, its name, and each of its commits.
#![tactic(auto)]

pub mod commits;

ghost use Rattle.std.specs.Prelude.{◌≡◌, length, Ok};
ghost use Rattle.traverse.specs.Said.{traversal_said};
ghost use Rattle.types.specs.Said.{Answers};
ghost use Rattle.types.specs.Refusals.{refused_at};
ghost use Rattle.file.specs.Table.{opening};
ghost use Rattle.traverse.specs.Traversal.{one_rule, one_place, traverse_by, traversal};
ghost use Rattle.traverse.specs.Scans.{traversed};

use commits::{Totals, commits};
use file::File;
use file::init::open;
use list::check;
use rules::{name_in, sum_in};
use types::refusal;
use types::refusal::{Reason, Refusal};

// What the commits of a file add up to.
#[derive(Clone, Copy)]
pub struct Summary {
    pub commits: u32,
    pub highest: u32,
    pub lowest: u32,
    pub most: usize,
}

// The counts are of commits with 0 to 64 parents, and with more; all 0 on refusal.
#[derive(Clone, Copy)]
pub struct Traversal {
    pub verdict: Result<Summary, Refusal>,
    pub counts: [u32; 66],
}

// The list's refusals, where it must have one record and its chain has `n` bytes.
#[tactic(auto, using(crate::proofs::Traversing::one_large, crate::proofs::Traversing::one_size, crate::proofs::Traversing::one_list))]
fn one(list: &[u8], n: usize) -> Result<(), Refusal>
    ensures { result ≡ refused_at (one_rule 32 n list.now) (one_place 32 n list.now) }
{
    if 1_073_741_824 < n {
        return Err(refusal::at(Reason::TooLarge, 0));
    }
    if list.len() != 32 {
        return Err(refusal::at(Reason::ListSize, 0));
    }
    check(list, n)
}

// The opened file: 62, 63, then each commit.
fn opened(chain: &[u8], list: &[u8], f: File) -> Result<Totals, Refusal>
    requires { (opening chain.now ≡ Ok f) × (length list.now ≡ 32) }
    ensures { traversed result ≡ traverse_by 32 chain.now list.now (Ok f) }
{
    sum_in(chain, f.width)?;
    name_in(list, 32, 0, chain, f.width)?;
    commits(chain, f)
}

// The list, the opening, then the opened file.
fn found(chain: &[u8], list: &[u8]) -> Result<Totals, Refusal>
    ensures { traversed result ≡ traversal 32 chain.now list.now }
{
    one(list, chain.len())?;
    let f = open(chain)?;
    opened(chain, list, f)
}

// Verifies the one file of a chain and says what its commits add up to.
#[tactic(auto, using(types::proofs::Saying::answers), unfolding(crate::specs::Scans::traversed))]
pub fn traverse(chain: &[u8], list: &[u8]) -> Traversal
    ensures { Answers traversal_said result (traversal 32 chain.now list.now) }
{
    match found(chain, list) {
        Ok(totals) => {
            let counts = totals.counts;
            Traversal {
                verdict: Ok(totals.summary),
                counts,
            }
        }
        Err(r) => Traversal {
            verdict: Err(r),
            counts: [0u32; 66],
        },
    }
}
