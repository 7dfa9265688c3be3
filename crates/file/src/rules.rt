// Opening's refusals, stage by stage.
ghost use Rattle.std.specs.Prelude.{◌≡◌, ◌/◌, ◌%◌, ◌<◌};
ghost use Rattle.chunk.specs.Index.{Found, size_of};
ghost use Rattle.file.specs.Table.{header, base_rules, chunk_rules, peak, peak_by, count_rules};

use chunk::{Span, missing, size};
use types::refusal::Reason;
use words::big::be32;

// The chunks that opening asks for.
#[derive(Clone, Copy)]
pub struct Index {
    pub base: Option<Span>,
    pub cdat: Option<Span>,
    pub oidf: Option<Span>,
    pub oidl: Option<Span>,
    pub edge: Option<Span>,
}

// Refusals 1 to 5.
#[tactic(auto, using(words::proofs::Rows::rows), unfolding(crate::specs::Table::header))]
pub fn head(s: &[u8]) -> Result<(), Reason>
    ensures { result ≡ header s.now }
{
    if 1073741824 < s.len() {
        return Err(Reason::TooLarge);
    }
    if s.len() < 1100 {
        return Err(Reason::TooSmall);
    }
    if be32(s, 0) != super::SIGNATURE {
        return Err(Reason::Signature);
    }
    if s[4] != 1 {
        return Err(Reason::Version);
    }
    if s[5] != 1 {
        return Err(Reason::HashVersion);
    }
    Ok(())
}

// How many records of `w` bytes a chunk holds, and how many bytes are left over.
fn records(c: Option<Span>, w: usize) -> usize
    requires { 0 < w }
    ensures { result ≡ size_of c / w }
{
    size(c) / w
}

fn over(c: Option<Span>, w: usize) -> usize
    requires { 0 < w }
    ensures { result ≡ size_of c % w }
{
    size(c) % w
}

// Refusals 10 and 11: of the BASE chunk, where B is `b`.
#[tactic(auto, using(words::proofs::Rows::rows), unfolding(crate::specs::Table::base_rules))]
pub(crate) fn base_rules(w: usize, b: usize, c: Option<Span>) -> Result<(), Reason>
    requires { 0 < w }
    ensures { result ≡ base_rules w b c }
{
    if missing(c) {
        return Ok(());
    }
    if over(c, w) != 0 {
        return Err(Reason::BaseSize);
    }
    if records(c, w) != b {
        return Err(Reason::BaseCount);
    }
    Ok(())
}

// Refusals 12 to 19, where B is `b` and `rest` bytes stand after the chunks.
#[tactic(auto, using(words::proofs::Rows::rows), unfolding(crate::specs::Table::chunk_rules))]
pub(crate) fn chunk_rules(w: usize, b: usize, rest: usize, x: Index) -> Result<(), Reason>
    requires { (0 < w) × (w < 1000) }
    ensures { result ≡ chunk_rules w b rest x }
{
    if missing(x.cdat) {
        return Err(Reason::CdatMissing);
    }
    if over(x.cdat, w + 16) != 0 {
        return Err(Reason::CdatSize);
    }
    if missing(x.oidf) {
        return Err(Reason::OidfMissing);
    }
    if size(x.oidf) != 1024 {
        return Err(Reason::OidfSize);
    }
    if missing(x.oidl) {
        return Err(Reason::OidlMissing);
    }
    if over(x.oidl, w) != 0 {
        return Err(Reason::OidlSize);
    }
    if rest != w {
        return Err(Reason::TrailerSize);
    }
    if missing(x.base) && 0 < b {
        return Err(Reason::BaseMissing);
    }
    Ok(())
}

// The first of the 255 fan entries that is above the next.
#[tactic(auto, using(words::proofs::Searches::searching), unfolding(crate::specs::Table::peak, crate::specs::Table::falls))]
pub(crate) fn fan(p: &[u8]) -> Option<usize>
    ensures { Found 255 (peak p.now) result }
{
    let mut last = be32(p, 0);
    for i in 0..255 {
        let next = be32(p, 4 * (i + 1));
        if next < last {
            return Some(i);
        }
        last = next;
    }
    None
}

// The same; none where refusal 20 is not tried.
#[tactic(auto, using(words::proofs::Rows::rows), unfolding(crate::specs::Table::peak_by))]
pub fn fan_by(p: &[u8], tried: bool) -> Option<usize>
    ensures { Found 255 (peak_by tried p.now) result }
{
    if tried { fan(p) } else { None }
}

// Refusals 21 and 22, where N is `n`.
#[tactic(auto, using(words::proofs::Rows::rows), unfolding(crate::specs::Table::count_rules))]
pub(crate) fn count_rules(w: usize, n: usize, x: Index) -> Result<(), Reason>
    requires { (0 < w) × (w < 1000) }
    ensures { result ≡ count_rules w n x }
{
    if records(x.oidl, w) != n {
        return Err(Reason::OidlCount);
    }
    if records(x.cdat, w + 16) != n {
        return Err(Reason::CdatCount);
    }
    Ok(())
}
