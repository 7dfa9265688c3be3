// The trailer of one file: where it lies, and whether it is the SHA-1 of what stands before it.
#![tactic(auto)]

ghost use Rattle.access.specs.Said.{asking_said};
ghost use Rattle.types.specs.Said.{Answers};
ghost use Rattle.types.specs.Refusals.{refused_at};
ghost use Rattle.std.specs.Prelude.{◌-◌, length};
ghost use Rattle.fit.specs.Fits.{fit_rule, AskedPart};
ghost use Rattle.sums.specs.Sums.{checksum_rule};

use file::File;
use fit::fit;
use rules::sum_in;
use types::refusal::Refusal;
use words::part::part;

// The trailer: the part of `s` that stores it, itself and no copy. Empty where the record does not fit.
#[tactic(auto, using(fit::proofs::Fitting::no_error, crate::proofs::Trailing::trailer_room))]
pub fn checksum<'a>(s: &'a [u8], f: File) -> &'a [u8]
    ensures { AskedPart s.entry (fit_rule s.now f) (length s.now - f.width) f.width result }
{
    if fit(s, f).is_err() {
        return &s[..0];
    }
    part(s, s.len() - f.width, f.width, 1)
}

// Which refusal the trailer meets: 62, or 40 where the record does not fit.
#[tactic(auto, using(crate::proofs::Trailing::trailing), unfolding(words::specs::First::refuse))]
pub fn verify_checksum(s: &[u8], f: File) -> Result<(), Refusal>
    ensures { Answers asking_said result (refused_at (checksum_rule s.now f) 0) }
{
    fit(s, f)?;
    sum_in(s, f.width)?;
    Ok(())
}
