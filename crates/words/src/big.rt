// Big-endian numbers in a slice. A byte past the end counts as 0.
ghost use Rattle.std.specs.Prelude.{◌≡◌, get_or};
ghost use Rattle.words.specs.Big.{be};

// The byte at `at`, or 0 past the end.
fn byte(s: &[u8], at: usize) -> u8
    ensures { result ≡ get_or s.now at 0 }
{
    s.get(at).copied().unwrap_or(0)
}

// Four bytes that run past the end, or may.
#[tactic(auto, unfolding(crate::specs::Big::be))]
fn past(s: &[u8], at: usize) -> u32
    ensures { result ≡ be 4 s.now at }
{
    if s.len() <= at {
        return 0;
    }
    u32::from_be_bytes([
        byte(s, at),
        byte(s, at + 1),
        byte(s, at + 2),
        byte(s, at + 3),
    ])
}

// The number that the four bytes at `at` make.
#[tactic(auto, unfolding(crate::specs::Big::be))]
pub fn be32(s: &[u8], at: usize) -> u32
    ensures { result ≡ be 4 s.now at }
{
    if s.len() < 4 || s.len() - 4 < at {
        return past(s, at);
    }
    u32::from_be_bytes([s[at], s[at + 1], s[at + 2], s[at + 3]])
}

// The number that the eight bytes at `at` make.
pub fn be64(s: &[u8], at: usize) -> u64
    ensures { result ≡ be 8 s.now at }
{
    if s.len() <= at {
        return 0;
    }
    u64::from(be32(s, at)) * 0x1_0000_0000 + u64::from(be32(s, at + 4))
}
