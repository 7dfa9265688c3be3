// What every layer above reads with: big-endian numbers, parts of slices.
#![tactic(auto)]

pub mod big;
pub mod part;
