// A file's bytes with a record that fits them, and the chunks' own parts by it.
ghost use Rattle.std.specs.Prelude.{◌≡◌, ◌+◌, ◌*◌, ◌≤◌, IfSome, length};
ghost use Rattle.std.specs.Option.{option_map};
ghost use Rattle.words.specs.Part.{PartOf};
ghost use Rattle.chunk.specs.Index.{start_of, size_of};
ghost use Rattle.fit.specs.Fits.{fit_rule, ask_rule, edge_chunk, Fitted};

use super::{ask, fit};
use file::File;
use types::refusal::Reason;

#[derive(Clone, Copy)]
pub struct Fit<'a> {
    pub bytes: &'a [u8],
    pub file: File,
    pub ghost fitted: { Fitted bytes.now file },
}

impl<'a> Fit<'a> {
    ghost use Rattle.fit.specs.Made.{MadeBy};

    // Refusal 40 of a record that does not fit.
    #[tactic(auto, using(crate::proofs::Fitting::fitted))]
    pub fn of(bytes: &'a [u8], file: File) -> Result<Fit<'a>, Reason>
        ensures { MadeBy (fit_rule bytes.now file) bytes.entry file result }
    {
        fit(bytes, file)?;
        Ok(Fit { bytes, file })
    }

    // Refusal 40 of a question on record `i` of `n`.
    #[tactic(auto, using(crate::proofs::Fitting::answered))]
    pub fn asked(bytes: &'a [u8], file: File, n: u32, i: u32) -> Result<Fit<'a>, Reason>
        ensures { MadeBy (ask_rule bytes.now file n i) bytes.entry file result }
    {
        ask(bytes, file, n, i)?;
        Ok(Fit { bytes, file })
    }

    // The part of `size` bytes from `at` on.
    fn cut(self, at: usize, size: usize) -> &'a [u8]
        requires { at + size ≤ length self.bytes.now }
        ensures { PartOf self.entry.bytes at size result }
    {
        &self.bytes[at..at + size]
    }

    // The OIDF, OIDL and CDAT chunks' own parts.
    pub fn fan(self) -> &'a [u8]
        ensures { PartOf self.entry.bytes self.entry.file.oidf 1024 result }
    {
        self.cut(self.file.oidf, 1024)
    }

    pub fn ids(self) -> &'a [u8]
        ensures { PartOf self.entry.bytes self.entry.file.oidl (self.entry.file.commits * self.entry.file.width) result }
    {
        let n = self.file.commits as usize;
        self.cut(self.file.oidl, n * self.file.width)
    }

    pub fn rows(self) -> &'a [u8]
        ensures { PartOf self.entry.bytes self.entry.file.cdat (self.entry.file.commits * (self.entry.file.width + 16)) result }
    {
        let n = self.file.commits as usize;
        self.cut(self.file.cdat, n * (self.file.width + 16))
    }

    // The part of the base ids.
    pub fn base(self) -> &'a [u8]
        ensures { PartOf self.entry.bytes self.entry.file.base (self.entry.file.bases * self.entry.file.width) result }
    {
        let n = self.file.bases as usize;
        self.cut(self.file.base, n * self.file.width)
    }

    // The EDGE chunk's own part, where the file has one.
    pub fn edge(self) -> Option<&'a [u8]>
        ensures bytes { option_map (λ b. b.now) result ≡ edge_chunk self.entry.bytes.now self.entry.file }
        ensures part { IfSome result (λ r. PartOf self.entry.bytes (start_of self.entry.file.edge) (size_of self.entry.file.edge) r) }
    {
        let span = self.file.edge?;
        Some(self.cut(span.start, span.end.saturating_sub(span.start)))
    }
}
