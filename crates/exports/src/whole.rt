// Questions on a chain: its files end to end in `chain`, named by `list`.
ghost use Rattle.std.specs.Prelude.{◌≡◌, length};
ghost use Rattle.graph.specs.Chain.{opening_of};
ghost use Rattle.walk.specs.Lists.{list_of, held_of};
ghost use Rattle.ask.specs.Lookups.{lookup_of};
ghost use Rattle.graph.specs.Spots.{located};
ghost use Rattle.ask.specs.Questions.{commit_of};
ghost use Rattle.walk.specs.Walks.{step_of};
ghost use Rattle.audit.specs.Rules.{verification};
ghost use Rattle.places.specs.Places.{chain_id, chain_tree};
ghost use Rattle.flat.specs.Images.{
  flat_opening,
  flat_found,
  flat_located,
  flat_commit,
  walk_of,
  flat_walked,
  flat_total,
  flat_verification,
};

use ask::lookup::find;
use ask::positions::commit_at;
use flat::walks::walk_at;
use flat::{Commit, Found, Opening, Part, Spot, Step, Total, Verification};
use graph::init::open;
use graph::locate::locate;
use places::{chain_id, chain_tree};
use types::graph::Position;
use verify::verify;
use walk::listing::list_at;
use walk::through_door;

// Opens a chain.
#[unsafe(no_mangle)]
pub extern "C" fn jampreso_open(chain: &[u8], list: &[u8]) -> Opening
    ensures { result ≡ flat_opening (opening_of 32 chain.now list.now) }
{
    open(chain, list).into()
}

// Where a position stands: its file's index, where that starts in the chain and how long it is, and the position in it.
#[unsafe(no_mangle)]
pub extern "C" fn jampreso_locate(chain: &[u8], list: &[u8], pos: u32) -> Spot
    ensures { result ≡ flat_located (located 32 chain.now list.now pos) }
{
    locate(chain, list, Position(pos)).into()
}

// The id at a position: the part of the chain that stores it.
#[unsafe(no_mangle)]
pub extern "C" fn jampreso_id(chain: &[u8], list: &[u8], pos: u32) -> Part
    ensures { result ≡ chain_id 32 chain.now list.now pos }
{
    chain_id(chain, list, Position(pos))
}

// The tree of the commit at a position, likewise.
#[unsafe(no_mangle)]
pub extern "C" fn jampreso_tree(chain: &[u8], list: &[u8], pos: u32) -> Part
    ensures { result ≡ chain_tree 32 chain.now list.now pos }
{
    chain_tree(chain, list, Position(pos))
}

// The position of an id.
#[unsafe(no_mangle)]
pub extern "C" fn jampreso_find(chain: &[u8], list: &[u8], id: &[u8]) -> Found
    ensures { result ≡ flat_found (lookup_of 32 chain.now list.now id.now) }
{
    find(chain, list, id).into()
}

// The commit at a position.
#[unsafe(no_mangle)]
pub extern "C" fn jampreso_commit(chain: &[u8], list: &[u8], pos: u32) -> Commit
    ensures { result ≡ flat_commit (commit_of 32 chain.now list.now pos) }
{
    commit_at(chain, list, Position(pos)).into()
}

// One step over the parents of the commit at a position. Its phase, passed back, goes on from there.
#[tactic(auto, using(flat::proofs::Backs::walked))]
#[unsafe(no_mangle)]
pub extern "C" fn jampreso_step(
    chain: &[u8],
    list: &[u8],
    pos: u32,
    phase: u32,
    edge: usize,
) -> Step
    ensures is { result ≡ flat_walked (step_of 32 chain.now list.now (walk_of pos phase edge)) }
    ensures next { walk_of pos result.phase result.edge ≡ (step_of 32 chain.now list.now (walk_of pos phase edge)).next }
{
    walk_at(pos, phase, edge).step(chain, list).into()
}

// The same through the walk that is changed in place.
#[tactic(auto, using(flat::proofs::Backs::walked))]
#[unsafe(no_mangle)]
pub extern "C" fn jampreso_door(
    chain: &[u8],
    list: &[u8],
    pos: u32,
    phase: u32,
    edge: usize,
) -> Step
    ensures is { result ≡ flat_walked (step_of 32 chain.now list.now (walk_of pos phase edge)) }
    ensures next { walk_of pos result.phase result.edge ≡ (step_of 32 chain.now list.now (walk_of pos phase edge)).next }
{
    through_door(walk_at(pos, phase, edge), chain, list).into()
}

// The parents of the commit at a position into `out`, and how many.
#[unsafe(no_mangle)]
pub extern "C" fn jampreso_list(chain: &[u8], list: &[u8], pos: u32, out: &mut [u32]) -> Total
    ensures answer { result ≡ flat_total (list_of 32 chain.now list.now pos (length out.old)) }
    ensures holds { out.new ≡ held_of 32 chain.now list.now pos out.old }
{
    list_at(chain, list, Position(pos), out).into()
}

// Verifies a chain.
#[unsafe(no_mangle)]
pub extern "C" fn jampreso_verify(chain: &[u8], list: &[u8]) -> Verification
    ensures { result ≡ flat_verification (verification 32 chain.now list.now) }
{
    verify(chain, list).into()
}
