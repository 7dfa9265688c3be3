// One commit-graph file. The ids and numbers are those of gitformat-commit-graph.
#![tactic(auto)]

pub mod init;
mod rules;

use chunk::Span;

// What an opened file says of itself: commits N, bases B, the width of an id, and where its chunks start.
#[derive(Clone, Copy)]
pub struct File {
    pub commits: u32,
    pub bases: u8,
    pub width: usize,
    pub oidf: usize,
    pub oidl: usize,
    pub cdat: usize,
    pub edge: Option<Span>,
    pub base: usize,
}

pub(crate) const SIGNATURE: u32 = 0x4347_5048;

pub(crate) const BASE: u32 = 0x4241_5345;

pub(crate) const CDAT: u32 = 0x4344_4154;

pub(crate) const EDGE: u32 = 0x4544_4745;

pub(crate) const OIDF: u32 = 0x4f49_4446;

pub(crate) const OIDL: u32 = 0x4f49_444c;
