// Refusals 60 to 63 of one file of a chain: its bases, its trailer and its name.
ghost use Rattle.std.specs.Prelude.{◌≡◌, ◌*◌, ◌≤◌, ◌<◌, length, Ok};
ghost use Rattle.list.specs.List.{records_of};
ghost use Rattle.graph.specs.Chain.{part_at, open_at};
ghost use Rattle.audit.specs.Scans.{alien_by, alien_rule, Reach, Tabled, JudgedAs};

use super::tables::Row;
use file::File;
use order::same;
use rules::{name_in, sum_in};
use types::refusal;
use types::refusal::{Reason, Refusal};
use words::part::part;

// Refusal 61: the first of the `i` base ids `ids`, each of `w` bytes, that is not the trailer of the file it stands for.
fn bases(chain: &[u8], table: &[Row], i: u32, w: usize, ids: &[u8]) -> Result<(), Refusal>
    requires { (i < length table.now) × (i * w ≤ length ids.now) × Reach table.now i w }
    ensures { result ≡ alien_rule (alien_by chain.now table.now w ids.now) i }
{
    for j in 0..i {
        let k = j as usize;
        let end = table[k + 1].start;
        if !same(part(ids, k * w, w, 1), chain, end - w) {
            return Err(refusal::at(Reason::BaseId, j as u64));
        }
    }
    Ok(())
}

// File `i`, which is `s` with the record `f`.
pub(crate) fn head(
    chain: &[u8],
    list: &[u8],
    z: u32,
    table: &[Row],
    i: u32,
    s: &[u8],
    f: File,
) -> Result<(), Refusal>
    requires tabled { Tabled z chain.now list.now table.now }
    requires i_bound { (i < records_of z list.now) × (open_at z chain.now list.now i ≡ Ok f) × (s.now ≡ part_at z chain.now list.now i) }
    ensures { JudgedAs z chain.now list.now i result }
{
    if f.bases as u32 != i {
        return Err(refusal::at(Reason::Bases, 0));
    }
    let ids = part(s, f.base, f.bases as usize, f.width);
    bases(chain, table, i, f.width, ids)?;
    sum_in(s, f.width)?;
    name_in(list, z, i, s, f.width)?;
    Ok(())
}
