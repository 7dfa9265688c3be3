// Refusals 62 to 67: the trailer, the name, and a commit's entry.
#![tactic(auto)]

ghost use Rattle.std.specs.Prelude.{◌≡◌, true, not, ◌+◌, ◌-◌, ◌*◌, ◌≤◌, ◌<◌, eqb, leb, ltb, length, take};
ghost use Rattle.types.specs.Width.{known};
ghost use Rattle.words.specs.Big.{be, number};
ghost use Rattle.words.specs.Part.{PartOf};
ghost use Rattle.digest.specs.Fips.{sha1_of};
ghost use Rattle.access.specs.Lookup.{lower};
ghost use Rattle.list.specs.List.{claim_at};
ghost use Rattle.rules.specs.Rules.{trailer_of, sum_in, name_in, id_rule, bucket_rule, tree_rule, entry_in};

use digest::sha1;
use list::{claims, count, kind_at};
use order::{compare, same, zero};
use types::refusal::Reason;
use types::width::known;
use words::big::be32;
use words::part::part;

// The last `w` bytes.
fn trailer<'a>(s: &'a [u8], w: usize) -> &'a [u8]
    requires { w ≤ length s.now }
    ensures { PartOf s.entry (length s.now - w) w result }
{
    part(s, s.len() - w, w, 1)
}

// The digest of all bytes before the trailer.
fn digest(s: &[u8], w: usize) -> [u8; 20]
    requires { w ≤ length s.now }
    ensures { result ≡ sha1_of (take (length s.now - w) s.now) }
{
    let n = s.len() - w;
    sha1(&s[..n])
}

// Refusal 62.
#[tactic(auto, using(crate::proofs::Trailers::trailers), unfolding(crate::specs::Rules::sum_in, crate::specs::Rules::sum_rule))]
pub fn sum_in(s: &[u8], w: usize) -> Result<(), Reason>
    ensures { result ≡ sum_in w s.now }
{
    if w != 20 || s.len() < w {
        return Err(Reason::Position);
    }
    let d = digest(s, w);
    if !same(&d, s, s.len() - w) {
        return Err(Reason::Checksum);
    }
    Ok(())
}

// Refusal 63 of the file `s` that record `k` of the list names.
#[tactic(auto, using(crate::proofs::Trailers::trailers), unfolding(crate::specs::Rules::name_in, crate::specs::Rules::name_rule))]
pub fn name_in(list: &[u8], z: u32, k: u32, s: &[u8], w: usize) -> Result<(), Reason>
    ensures { result ≡ name_in w z list.now k s.now }
{
    if count(list, z) <= k as usize || w != 20 || s.len() < w {
        return Err(Reason::Position);
    }
    let kind = kind_at(list, z, k);
    if kind == 2 || (kind == 1 && !claims(list, z, k, trailer(s, w))) {
        return Err(Reason::Name);
    }
    Ok(())
}

// `x` is above the run of as many bytes at `at`.
fn above(x: &[u8], ids: &[u8], at: usize) -> bool
    ensures { result ≡ not (leb (number x.now) (be (length x.now) ids.now at)) }
{
    compare(x, ids, at).is_gt()
}

// Refusals 64 and 65 of id `c`.
#[tactic(auto, using(crate::proofs::Entries::ids), unfolding(crate::specs::Rules::id_rule))]
fn id_rule(ids: &[u8], w: usize, c: u32) -> Result<(), Reason>
    requires { (known w ≡ true) × (c * w + w ≤ length ids.now) }
    ensures { result ≡ id_rule w ids.now c }
{
    let at = (c as usize) * w;
    let id = part(ids, at, w, 1);
    if zero(id) {
        return Err(Reason::IdZero);
    }
    if 0 < c && !above(id, ids, at - w) {
        return Err(Reason::IdOrder);
    }
    Ok(())
}

// Position `c` comes before the fan bucket of first byte `b`.
#[tactic(auto, using(access::proofs::Halving::lower_zero, access::proofs::Halving::lower_is, words::proofs::Rows::rows))]
fn early(fan: &[u8], b: u8, c: u32) -> bool
    ensures { result ≡ ltb c (lower fan.now b) }
{
    0 < b && c < be32(fan, 4 * ((b as usize) - 1))
}

// Refusal 66 of first byte `b` at position `c`.
#[tactic(auto, using(words::proofs::Rows::rows), unfolding(crate::specs::Rules::bucket_rule))]
fn bucket_rule(fan: &[u8], b: u8, c: u32) -> Result<(), Reason>
    ensures { result ≡ bucket_rule fan.now b c }
{
    if early(fan, b, c) || be32(fan, 4 * (b as usize)) <= c {
        return Err(Reason::IdBucket);
    }
    Ok(())
}

// Refusal 67 of entry `c`.
#[tactic(auto, using(crate::proofs::Entries::zero_said, words::proofs::Rows::rows), unfolding(crate::specs::Rules::tree_rule))]
fn tree_rule(rows: &[u8], w: usize, c: u32) -> Result<(), Reason>
    requires { (known w ≡ true) × (c * (w + 16) + (w + 16) ≤ length rows.now) }
    ensures { result ≡ tree_rule w rows.now c }
{
    if zero(part(rows, (c as usize) * (w + 16), w, 1)) {
        return Err(Reason::TreeZero);
    }
    Ok(())
}

// Refusals 64 to 67 of entry `c` of the chunks OIDF, OIDL and CDAT, by their own parts.
#[tactic(auto, using(crate::proofs::Entries::entries), unfolding(crate::specs::Rules::entry_in, crate::specs::Rules::entry_rule, words::specs::First::refuse))]
pub fn entry_in(fan: &[u8], ids: &[u8], rows: &[u8], w: usize, c: u32) -> Result<(), Reason>
    ensures { result ≡ entry_in w fan.now ids.now rows.now c }
{
    if !known(w) || fan.len() < 1024 {
        return Err(Reason::Position);
    }
    let i = c as usize;
    if ids.len() < i * w + w || rows.len() < i * (w + 16) + (w + 16) {
        return Err(Reason::Position);
    }
    id_rule(ids, w, c)?;
    bucket_rule(fan, ids[i * w], c)?;
    tree_rule(rows, w, c)
}
