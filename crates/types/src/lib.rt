// What the layers share: refusals with their numbers, the widths of an id, and the two kinds of position, which do not mix.
#![tactic(auto)]

pub mod file;
pub mod graph;
pub mod refusal;
pub mod width;
