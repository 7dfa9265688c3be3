// Parts: any, of what marks where something stands, the trailer, and an entry of the index.
#![tactic(auto, unfolding(crate::specs::Images::flat_mark, crate::specs::Images::flat_trailer, crate::specs::Images::flat_entry))]

ghost use Rattle.std.specs.Prelude.{◌≡◌, Err};
ghost use Rattle.words.specs.First.{fine};
ghost use Rattle.flat.specs.Images.{flat_part, flat_mark, flat_trailer, flat_entry};

use super::{Entry, Part, Trailer};
use chunk::{Span, size};
use marks::Checked;
use types::refusal::Refusal;

// The part of `size` bytes from `at` on.
pub fn part_at(at: usize, size: usize) -> Part
    ensures { result ≡ flat_part fine at size }
{
    Part {
        at,
        size,
        ..Part::default()
    }
}

// The refusal in its place.
pub fn no_part(r: Refusal) -> Part
    ensures { result ≡ flat_part (Err r) 0 0 }
{
    Part {
        place: r.place,
        number: r.reason.number(),
        file: r.file,
        ..Part::default()
    }
}

// Where the bytes stand that answer a question; no bytes at 0 where none do.
impl From<Result<Option<Span>, Refusal>> for Part {
    ghost from_gives = { λ answer r. r ≡ flat_mark answer };

    fn from(answer: Result<Option<Span>, Refusal>) -> Part {
        match answer {
            Ok(Some(p)) => part_at(p.start, size(Some(p))),
            Ok(None) => Part::default(),
            Err(r) => no_part(r),
        }
    }
}

// The trailer.
impl From<Result<Checked, Refusal>> for Trailer {
    ghost from_gives = { λ answer r. r ≡ flat_trailer answer };

    fn from(answer: Result<Checked, Refusal>) -> Trailer {
        match answer {
            Ok(Checked::Right(p)) => Trailer {
                at: p.start,
                size: size(Some(p)),
                right: 1,
                ..Trailer::default()
            },
            Ok(Checked::Wrong(p)) => Trailer {
                at: p.start,
                size: size(Some(p)),
                ..Trailer::default()
            },
            Err(r) => Trailer {
                place: r.place,
                number: r.reason.number(),
                file: r.file,
                ..Trailer::default()
            },
        }
    }
}

// An entry of the index; the id 0 and no bytes at 0 past the last.
impl From<Result<Option<chunk::Entry>, Refusal>> for Entry {
    ghost from_gives = { λ answer r. r ≡ flat_entry answer };

    fn from(answer: Result<Option<chunk::Entry>, Refusal>) -> Entry {
        match answer {
            Ok(Some(e)) => Entry {
                at: e.span.start,
                size: size(Some(e.span)),
                id: e.id,
                ..Entry::default()
            },
            Ok(None) => Entry::default(),
            Err(r) => Entry {
                place: r.place,
                number: r.reason.number(),
                file: r.file,
                ..Entry::default()
            },
        }
    }
}
