// Opening a chain: the list, then each file.
ghost use Rattle.std.specs.Prelude.{◌≡◌};
ghost use Rattle.file.specs.Table.{opening};
ghost use Rattle.graph.specs.Said.{opening_said};
ghost use Rattle.types.specs.Said.{Answers};
ghost use Rattle.graph.specs.Chain.{in_file, opening_of};
ghost use Rattle.graph.specs.Passes.{Viewed};

use super::locate::of_file;
use super::survey::{Survey, pass};
use file::File;
use list::check;
use types::refusal::Refusal;

// Opens file `k`, whose bytes are `s`.
#[tactic(auto, unfolding(crate::specs::Chain::in_file))]
pub fn open_file(k: u32, s: &[u8]) -> Result<File, Refusal>
    ensures { result ≡ in_file k (opening s.now) }
{
    file::init::open(s).map_err(|r| of_file(k, r))
}

// The first refusal of the list and of each file's opening; else the commits, and where position `g` stands.
#[tactic(auto, using(crate::proofs::Views::opening))]
pub(crate) fn view(chain: &[u8], list: &[u8], g: u32) -> Result<Survey, Refusal>
    ensures { Viewed 32 chain.now list.now g result }
{
    check(list, chain.len())?;
    let n = (list.len() / 32) as u32;
    pass(chain, list, 32, n, g)
}

// Opens a chain: its commits.
#[tactic(auto, using(crate::proofs::Views::opening))]
pub fn open(chain: &[u8], list: &[u8]) -> Result<u32, Refusal>
    ensures { Answers opening_said result (opening_of 32 chain.now list.now) }
{
    let survey = view(chain, list, 0)?;
    Ok(survey.commits)
}
