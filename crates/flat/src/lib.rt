// Each answer of the library as the numbers that cross to C and Rust: the structs, and the conversions that make them.
// `number`, `file` and `place` are the refusal's, 0 where there is none; where there is one, every other number is 0, but a step's phase.
// `spare` is 0: it fills a struct up to a multiple of 8 bytes.
#![tactic(auto)]

pub mod answers;
pub mod commits;
pub mod parts;
pub mod records;
pub mod verdicts;
pub mod walks;

#[repr(C)]
#[derive(Clone, Copy)]
pub struct Digest {
    pub bytes: [u8; 20],
}

#[repr(C)]
#[derive(Clone, Copy)]
pub struct Name {
    pub kind: u32,
    pub hash: [u8; 20],
}

// What an opened file says of itself: where its chunks start, its commits and bases, and, where `has_edge` is not 0, its EDGE chunk.
#[repr(C)]
#[derive(Clone, Copy, Default)]
pub struct Record {
    pub width: usize,
    pub oidf: usize,
    pub oidl: usize,
    pub cdat: usize,
    pub edge: usize,
    pub edge_size: usize,
    pub base: usize,
    pub commits: u32,
    pub bases: u32,
    pub has_edge: u32,
    pub spare: u32,
}

#[repr(C)]
#[derive(Clone, Copy, Default)]
pub struct Opened {
    pub record: Record,
    pub place: u64,
    pub number: u32,
    pub file: u32,
}

#[repr(C)]
#[derive(Clone, Copy, Default)]
pub struct Asked {
    pub place: u64,
    pub number: u32,
    pub file: u32,
}

// The `size` bytes from `at` on.
#[repr(C)]
#[derive(Clone, Copy, Default)]
pub struct Part {
    pub at: usize,
    pub size: usize,
    pub place: u64,
    pub number: u32,
    pub file: u32,
}

// Where the trailer stands; `right` is 1 where it is the SHA-1 of all bytes before it.
#[repr(C)]
#[derive(Clone, Copy, Default)]
pub struct Trailer {
    pub at: usize,
    pub size: usize,
    pub place: u64,
    pub number: u32,
    pub file: u32,
    pub right: u32,
    pub spare: u32,
}

// An entry of a file's index: the chunk's id, and its bytes.
#[repr(C)]
#[derive(Clone, Copy, Default)]
pub struct Entry {
    pub at: usize,
    pub size: usize,
    pub place: u64,
    pub number: u32,
    pub file: u32,
    pub id: u32,
    pub spare: u32,
}

#[repr(C)]
#[derive(Clone, Copy, Default)]
pub struct Opening {
    pub place: u64,
    pub number: u32,
    pub file: u32,
    pub commits: u32,
    pub spare: u32,
}

// File `index` has the position, at `pos` there; it is the `size` bytes of the chain from `start` on.
#[repr(C)]
#[derive(Clone, Copy, Default)]
pub struct Spot {
    pub start: usize,
    pub size: usize,
    pub place: u64,
    pub number: u32,
    pub file: u32,
    pub index: u32,
    pub pos: u32,
}

#[repr(C)]
#[derive(Clone, Copy, Default)]
pub struct Found {
    pub place: u64,
    pub number: u32,
    pub file: u32,
    pub found: u32,
    pub pos: u32,
}

// The kind of a parent word: 0 none, 1 a position, 2 an index into EDGE.
#[repr(C)]
#[derive(Clone, Copy, Default)]
pub struct Commit {
    pub time: u64,
    pub place: u64,
    pub number: u32,
    pub file: u32,
    pub generation: u32,
    pub first_kind: u32,
    pub first: u32,
    pub second_kind: u32,
    pub second: u32,
    pub spare: u32,
}

// The kind: 0 a parent, 1 a refusal, 2 the end. The phase after the step: 0 first, 1 second, 2 EDGE number `edge`, 3 exhausted.
#[repr(C)]
#[derive(Clone, Copy, Default)]
pub struct Step {
    pub edge: usize,
    pub place: u64,
    pub number: u32,
    pub file: u32,
    pub kind: u32,
    pub parent: u32,
    pub phase: u32,
    pub spare: u32,
}

#[repr(C)]
#[derive(Clone, Copy, Default)]
pub struct Total {
    pub count: usize,
    pub place: u64,
    pub number: u32,
    pub file: u32,
}

#[repr(C)]
#[derive(Clone, Copy)]
pub struct Traversal {
    pub most: usize,
    pub place: u64,
    pub number: u32,
    pub file: u32,
    pub commits: u32,
    pub highest: u32,
    pub lowest: u32,
    pub counts: [u32; 66],
    pub spare: u32,
}

// `cyclic` is 1 where some commit is its own ancestor; `length` is 0 there.
#[repr(C)]
#[derive(Clone, Copy)]
pub struct Verification {
    pub place: u64,
    pub number: u32,
    pub file: u32,
    pub commits: u32,
    pub cyclic: u32,
    pub length: u32,
    pub counts: [u32; 66],
    pub spare: u32,
}
