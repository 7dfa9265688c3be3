// Positions, and whether a question was refused.
#![tactic(auto, unfolding(crate::specs::Images::flat_asked, crate::specs::Images::flat_opening, crate::specs::Images::flat_located, crate::specs::Images::flat_found, crate::specs::Images::flat_found_in))]

ghost use Rattle.std.specs.Prelude.{◌≡◌};
ghost use Rattle.flat.specs.Images.{flat_asked, flat_opening, flat_located, flat_found, flat_found_in};

use super::{Asked, Found, Opening, Spot};
use graph::locate::Spot as Stands;
use types::file::Position as FilePosition;
use types::graph::Position;
use types::refusal::Refusal;

// Whether a question was refused.
impl From<Result<(), Refusal>> for Asked {
    ghost from_gives = { λ answer r. r ≡ flat_asked answer };

    fn from(answer: Result<(), Refusal>) -> Asked {
        match answer {
            Ok(()) => Asked::default(),
            Err(r) => Asked {
                place: r.place,
                number: r.reason.number(),
                file: r.file,
            },
        }
    }
}

// A chain's commits, or the refusal in their place.
impl From<Result<u32, Refusal>> for Opening {
    ghost from_gives = { λ answer r. r ≡ flat_opening answer };

    fn from(answer: Result<u32, Refusal>) -> Opening {
        match answer {
            Ok(commits) => Opening {
                commits,
                ..Opening::default()
            },
            Err(r) => Opening {
                place: r.place,
                number: r.reason.number(),
                file: r.file,
                ..Opening::default()
            },
        }
    }
}

// Where a position stands.
impl From<Result<Stands, Refusal>> for Spot {
    ghost from_gives = { λ answer r. r ≡ flat_located answer };

    fn from(answer: Result<Stands, Refusal>) -> Spot {
        match answer {
            Ok(spot) => Spot {
                start: spot.start,
                size: spot.size,
                index: spot.file,
                pos: spot.pos.0,
                ..Spot::default()
            },
            Err(r) => Spot {
                place: r.place,
                number: r.reason.number(),
                file: r.file,
                ..Spot::default()
            },
        }
    }
}

// The position of an id in a chain, and in a file.
impl From<Result<Option<Position>, Refusal>> for Found {
    ghost from_gives = { λ answer r. r ≡ flat_found answer };

    fn from(answer: Result<Option<Position>, Refusal>) -> Found {
        match answer {
            Ok(Some(p)) => Found {
                found: 1,
                pos: p.0,
                ..Found::default()
            },
            Ok(None) => Found::default(),
            Err(r) => Found {
                place: r.place,
                number: r.reason.number(),
                file: r.file,
                ..Found::default()
            },
        }
    }
}

impl From<Result<Option<FilePosition>, Refusal>> for Found {
    ghost from_gives = { λ answer r. r ≡ flat_found_in answer };

    fn from(answer: Result<Option<FilePosition>, Refusal>) -> Found {
        match answer {
            Ok(Some(p)) => Found {
                found: 1,
                pos: p.0,
                ..Found::default()
            },
            Ok(None) => Found::default(),
            Err(r) => Found {
                place: r.place,
                number: r.reason.number(),
                file: r.file,
                ..Found::default()
            },
        }
    }
}
