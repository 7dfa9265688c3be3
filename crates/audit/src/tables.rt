// One pass over the files of a chain: each is opened, and a table says where they lie.
ghost use Rattle.std.specs.Prelude.{◌≡◌};
ghost use Rattle.list.specs.List.{records_of};
ghost use Rattle.graph.specs.Chain.{Listed};
ghost use Rattle.audit.specs.Scans.{Opens};

use graph::init::open_file;
use list::length_at;
use types::refusal::Refusal;
use words::part::part;

// Where a file lies: where it starts in the chain, its first position, where its CDAT chunk lies in the chain, and the width of its ids.
#[derive(Clone, Copy)]
pub struct Row {
    pub start: usize,
    pub first: usize,
    pub cdat: usize,
    pub width: usize,
}

// Opens each of the `n` files: the first refusal, or a table with a row for each file, and one more with the two ends.
pub(crate) fn survey(chain: &[u8], list: &[u8], z: u32, n: u32) -> Result<[Row; 257], Refusal>
    requires { (n ≡ records_of z list.now) × Listed z chain.now list.now n }
    ensures { Opens z chain.now list.now result }
{
    let mut table = [Row {
        start: 0,
        first: 0,
        cdat: 0,
        width: 0,
    }; 257];
    let mut start = 0;
    let mut first = 0;
    for k in 0..n {
        let s = part(chain, start, length_at(list, z, k) as usize, 1);
        let f = open_file(k, s)?;
        table[k as usize] = Row {
            start,
            first,
            cdat: start + f.cdat,
            width: f.width,
        };
        start += s.len();
        first += f.commits as usize;
    }
    table[n as usize] = Row {
        start,
        first,
        cdat: 0,
        width: 0,
    };
    Ok(table)
}
