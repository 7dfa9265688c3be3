// A chain verified, and what the answer comes to: acceptance is exact, the counts add up, lookup is exact, and the length is true.
#![tactic(auto)]

ghost use Rattle.audit.specs.Said.{verification_said};
ghost use Rattle.types.specs.Said.{Answers};
ghost use Rattle.audit.specs.Rules.{verification};
ghost use Rattle.verify.specs.Facts.{Claims};

use audit::{Verification, audit};

// Verifies a chain.
pub fn verify(chain: &[u8], list: &[u8]) -> Verification
    ensures exact { Answers verification_said result (verification 32 chain.now list.now) }
    ensures claims { Claims 32 chain.now list.now result }
{
    audit(chain, list)
}
