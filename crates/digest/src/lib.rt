// SHA-1, as FIPS 180-4 defines it: the digest of a slice. specs/Fips.antt is the standard, with those of the crates `hasher` and `block`.
#![tactic(auto)]

ghost use Rattle.std.specs.Prelude.{◌≡◌};
ghost use Rattle.digest.specs.Fips.{sha1_of};

use hasher::Hasher;

// The digest of a message.
#[tactic(auto, using(crate::proofs::Laws::of_finished), unfolding(hasher::specs::State::hasher_of))]
pub fn sha1(s: &[u8]) -> [u8; 20]
    ensures { result ≡ sha1_of s.now }
{
    Hasher::new().update(s).finish()
}
