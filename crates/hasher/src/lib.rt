// A SHA-1 digest taken piece by piece. A hasher holds the bytes of the open block, the five words after the blocks before it, and the
// count of all bytes. How many bytes are open is the count's remainder by 64, so every value of the struct is a hasher.
#![tactic(auto)]

mod fields;

ghost use Rattle.std.specs.Prelude.{◌≡◌};
ghost use Rattle.hasher.specs.State.{started, updated, finished};

use block::blocks;
use fields::{digest, joined};

#[derive(Clone, Copy)]
pub struct Hasher {
    pub block: [u8; 64],
    pub words: [u32; 5],
    pub count: u64,
}

impl Hasher {
    // A hasher that has had nothing.
    #[tactic(auto, unfolding(crate::specs::State::started, crate::specs::Fips::initial))]
    pub fn new() -> Hasher
        ensures { result ≡ started }
    {
        Hasher {
            block: [0u8; 64],
            words: [
                0x6745_2301,
                0xefcd_ab89,
                0x98ba_dcfe,
                0x1032_5476,
                0xc3d2_e1f0,
            ],
            count: 0,
        }
    }

    // The hasher after s.
    pub fn update(self, s: &[u8]) -> Hasher
        ensures { result ≡ updated self s.now }
    {
        let open = (self.count % 64) as usize;
        let count = self.count.wrapping_add(s.len() as u64);
        let room = 64 - open;
        if s.len() < room {
            let block = joined(&self.block[..open], s);
            return Hasher {
                block,
                count,
                ..self
            };
        }
        let (head, tail) = s.split_at(room);
        let full = joined(&self.block[..open], head);
        let first = blocks(self.words, &full);
        let words = blocks(first, tail);
        let block = joined(&[], tail.chunks_exact(64).remainder());
        Hasher {
            block,
            words,
            count,
        }
    }

    // The digest of all that the hasher has had: a one bit, zeros up to eight bytes short of a whole block, and the length in bits.
    pub fn finish(self) -> [u8; 20]
        ensures { result ≡ finished self }
    {
        let mut mark = [0u8; 64];
        mark[0] = 0x80;
        let e = 1 + ((119 - self.count % 64) % 64) as usize;
        let size = self.count.wrapping_mul(8).to_be_bytes();
        let h = self.update(&mark[..e]).update(&size);
        digest(h.words)
    }
}
