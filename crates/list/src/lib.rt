// The list that names a chain's files, in records of one size `z`: length (4), name kind (4), claimed hash (20), four zero bytes.
#![tactic(auto)]

ghost use Rattle.std.specs.Prelude.{◌≡◌, ◌+◌, ◌*◌, ◌≤◌, ◌<◌, not, ◌&&◌, eqb, length};
ghost use Rattle.types.specs.Refusals.{refused_at};
ghost use Rattle.words.specs.Big.{be, number};
ghost use Rattle.words.specs.First.{first};
ghost use Rattle.words.specs.Part.{RecordsOf};
ghost use Rattle.words.specs.Sums.{before};
ghost use Rattle.list.specs.List.{records_of, length_at, kind_at, claim_at, spare_at, record_rule, flawed, size_rule, list_rule, list_place};

use order::{same, zero};
use types::refusal;
use types::refusal::{Reason, Refusal};
use words::big::be32;
use words::part::part;

// How many records the list has.
pub fn count(list: &[u8], z: u32) -> usize
    ensures { result ≡ records_of z list.now }
{
    if z == 0 {
        return 0;
    }
    list.len() / (z as usize)
}

// Where record `k` starts.
#[tactic(auto, using(crate::proofs::Records::square))]
fn at(z: u32, k: u32) -> usize
    ensures { (result ≡ k * z) × (result ≤ 18446744065119617025) }
{
    (k as usize) * (z as usize)
}

// The length that record `k` gives.
pub fn length_at(list: &[u8], z: u32, k: u32) -> u32
    ensures { result ≡ length_at z list.now k }
{
    be32(list, at(z, k))
}

// The kind of name that record `k` gives.
pub fn kind_at(list: &[u8], z: u32, k: u32) -> u32
    ensures { result ≡ kind_at z list.now k }
{
    be32(list, at(z, k) + 4)
}

// The hash bytes of record `k`, themselves and no copy; the empty part at the start where the list has no such bytes.
pub fn claim_at<'a>(list: &'a [u8], z: u32, k: u32) -> &'a [u8]
    ensures { RecordsOf list.entry (k * z + 8) 20 1 result }
{
    part(list, at(z, k) + 8, 20, 1)
}

// `x` is the run of as many bytes at the place of record `k`'s hash.
pub fn claims(list: &[u8], z: u32, k: u32, x: &[u8]) -> bool
    ensures { result ≡ eqb (number x.now) (be (length x.now) list.now (k * z + 8)) }
{
    same(x, list, at(z, k) + 8)
}

// The four spare bytes of record `k`.
fn spare_at(list: &[u8], z: u32, k: u32) -> u32
    ensures { result ≡ spare_at z list.now k }
{
    be32(list, at(z, k) + 28)
}

// Record `k` claims nothing: its hash bytes are zero.
#[tactic(auto, using(crate::proofs::Records::claim_number))]
fn blank(list: &[u8], z: u32, k: u32) -> bool
    requires { k * z + 28 ≤ length list.now }
    ensures { result ≡ eqb (claim_at z list.now k) 0 }
{
    zero(claim_at(list, z, k))
}

// Record `k` has hash bytes though its kind claims none.
fn stray(list: &[u8], z: u32, k: u32) -> bool
    requires { k * z + 28 ≤ length list.now }
    ensures { result ≡ ((not (eqb (kind_at z list.now k) 1)) && (not (eqb (claim_at z list.now k) 0))) }
{
    kind_at(list, z, k) != 1 && !blank(list, z, k)
}

// Refusal 31 of record `k`.
#[tactic(auto, using(words::proofs::Rows::rows), unfolding(crate::specs::List::record_rule))]
fn record_rule(list: &[u8], z: u32, k: u32) -> Result<(), Reason>
    requires { k * z + 28 ≤ length list.now }
    ensures { result ≡ record_rule z list.now k }
{
    if 2 < kind_at(list, z, k) || stray(list, z, k) || 0 < spare_at(list, z, k) {
        return Err(Reason::ListRecord);
    }
    Ok(())
}

// The sum of the lengths that the first `n` records give.
#[tactic(auto, using(words::proofs::Adds::before_next), unfolding(words::specs::Sums::before))]
fn total(list: &[u8], z: u32, n: u32) -> u64
    requires { n ≤ 256 }
    ensures { result ≡ before (length_at z list.now) n }
{
    let mut sum = 0;
    for k in 0..n {
        sum += length_at(list, z, k) as u64;
    }
    sum
}

// Refusals 1 and 30 of a list for a chain of `n` bytes.
#[tactic(auto, using(words::proofs::Rows::rows), unfolding(crate::specs::List::size_rule))]
fn size_rule(list: &[u8], z: u32, n: usize) -> Result<(), Reason>
    requires { 0 < z }
    ensures { result ≡ size_rule z n list.now }
{
    if 1073741824 < n {
        return Err(Reason::TooLarge);
    }
    let z = z as usize;
    if list.is_empty() || list.len() % z != 0 || 256 < list.len() / z {
        return Err(Reason::ListSize);
    }
    Ok(())
}

// Refusals 1 and 30 to 32 of a list of 32-byte records for a chain of `n` bytes.
#[tactic(auto, using(crate::proofs::Records::checking), unfolding(crate::specs::List::bad_record, crate::specs::List::flawed))]
pub fn check(list: &[u8], n: usize) -> Result<(), Refusal>
    ensures { result ≡ refused_at (list_rule 32 n list.now) (list_place 32 n list.now) }
{
    size_rule(list, 32, n)?;
    let c = (list.len() / 32) as u32;
    for k in 0..c {
        record_rule(list, 32, k).map_err(|reason| refusal::at(reason, k as u64))?;
    }
    if total(list, 32, c) != (n as u64) {
        return Err(refusal::at(Reason::ListSum, 0));
    }
    Ok(())
}
