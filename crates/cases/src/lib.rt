// What the programs over stored cases share of their input: its records, and the phase of a walk in it.
#![tactic(auto)]

pub mod record;
pub mod step;
