// What verification says of a file and of a chain.
#![tactic(auto, unfolding(crate::specs::Images::flat_judged, crate::specs::Images::flat_verdict))]

ghost use Rattle.std.specs.Prelude.{◌≡◌};
ghost use Rattle.audit.specs.Said.{cyclic_of, steps_of};
ghost use Rattle.flat.specs.Images.{flat_traversal, flat_verification};

use super::{Traversal, Verification};
use audit::Length;

// One file verified. Each field is written out: an array of 66 numbers has no default.
impl From<traverse::Traversal> for Traversal {
    ghost from_gives = { λ t r. r ≡ flat_traversal t };

    fn from(t: traverse::Traversal) -> Traversal {
        let counts = t.counts;
        match t.verdict {
            Ok(m) => Traversal {
                most: m.most,
                place: 0,
                number: 0,
                file: 0,
                commits: m.commits,
                highest: m.highest,
                lowest: m.lowest,
                counts,
                spare: 0,
            },
            Err(r) => Traversal {
                most: 0,
                place: r.place,
                number: r.reason.number(),
                file: r.file,
                commits: 0,
                highest: 0,
                lowest: 0,
                counts,
                spare: 0,
            },
        }
    }
}

// Whether some commit is its own ancestor, and the length.
fn cyclic_of(l: Length) -> u32
    ensures { result ≡ cyclic_of l }
{
    match l {
        Length::Steps(_) => 0,
        Length::Cyclic => 1,
    }
}

fn steps_of(l: Length) -> u32
    ensures { result ≡ steps_of l }
{
    match l {
        Length::Steps(n) => n,
        Length::Cyclic => 0,
    }
}

// A chain verified.
impl From<audit::Verification> for Verification {
    ghost from_gives = { λ v r. r ≡ flat_verification v };

    fn from(v: audit::Verification) -> Verification {
        let counts = v.counts;
        match v.verdict {
            Ok(s) => Verification {
                place: 0,
                number: 0,
                file: 0,
                commits: s.commits,
                cyclic: cyclic_of(s.length),
                length: steps_of(s.length),
                counts,
                spare: 0,
            },
            Err(r) => Verification {
                place: r.place,
                number: r.reason.number(),
                file: r.file,
                commits: 0,
                cyclic: 0,
                length: 0,
                counts,
                spare: 0,
            },
        }
    }
}
