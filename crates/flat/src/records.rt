// A file's record, and back.
#![tactic(auto, unfolding(crate::specs::Records::edge_of, crate::specs::Records::file_of, crate::specs::Records::record_of, crate::specs::Records::flat_opened))]

ghost use Rattle.std.specs.Prelude.{◌≡◌};
ghost use Rattle.flat.specs.Records.{edge_of, file_of, record_of, flat_opened};

use super::{Opened, Record};
use chunk::{Span, size, start};
use file::File;
use types::refusal::Refusal;

// A record as the library has it, and back. A forged one has its bases modulo 256, any `has_edge` but 0 counts as present, and an EDGE chunk that
// would end past the largest number ends there, so that it fits no bytes.
fn edge_of(there: u32, start: usize, size: usize) -> Option<Span>
    ensures { result ≡ edge_of there start size }
{
    if there == 0 {
        return None;
    }
    let end = start.saturating_add(size);
    Some(Span { start, end })
}

pub fn file_of(r: Record) -> File
    ensures { result ≡ file_of r }
{
    File {
        commits: r.commits,
        bases: (r.bases % 256) as u8,
        width: r.width,
        oidf: r.oidf,
        oidl: r.oidl,
        cdat: r.cdat,
        edge: edge_of(r.has_edge, r.edge, r.edge_size),
        base: r.base,
    }
}

fn record_of(f: File) -> Record
    ensures { result ≡ record_of f }
{
    Record {
        width: f.width,
        oidf: f.oidf,
        oidl: f.oidl,
        cdat: f.cdat,
        edge: start(f.edge),
        edge_size: size(f.edge),
        base: f.base,
        commits: f.commits,
        bases: f.bases as u32,
        has_edge: f.edge.is_some() as u32,
        spare: 0,
    }
}

// An opened file, or the refusal in its place.
impl From<Result<File, Refusal>> for Opened {
    ghost from_gives = { λ answer r. r ≡ flat_opened answer };

    fn from(answer: Result<File, Refusal>) -> Opened {
        match answer {
            Ok(f) => Opened {
                record: record_of(f),
                ..Opened::default()
            },
            Err(r) => Opened {
                place: r.place,
                number: r.reason.number(),
                file: r.file,
                ..Opened::default()
            },
        }
    }
}
