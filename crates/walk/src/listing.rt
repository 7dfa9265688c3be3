// The parent list in a chain: a commit's parents written into a lent list.
ghost use Rattle.std.specs.Prelude.{◌≡◌, length};
ghost use Rattle.parents.specs.Said.{total_said};
ghost use Rattle.types.specs.Said.{Answers};
ghost use Rattle.walk.specs.Lists.{list_of, held_of};

use graph::locate::{locate, of_file};
use parents::listing;
use types::graph::Position;
use types::refusal::Refusal;
use words::part::part;

// The parents of the commit at a position into `out`, and how many. Entries past the last stay; on refusal nothing is written.
pub fn list_at(chain: &[u8], list: &[u8], pos: Position, out: &mut [u32]) -> Result<usize, Refusal>
    ensures answer { Answers total_said result (list_of 32 chain.now list.now pos.0 (length out.old)) }
    ensures holds { out.new ≡ held_of 32 chain.now list.now pos.0 out.old }
{
    let spot = locate(chain, list, pos)?;
    let s = part(chain, spot.start, spot.size, 1);
    listing::list_at(s, spot.inner, spot.pos, out).map_err(|r| of_file(spot.file, r))
}
