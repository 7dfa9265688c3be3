// What C and Rust link: each function asks the library one question and hands its answer over as numbers (crate `flat`).
// A slice crosses as its pointer and its length.
#![tactic(auto)]

pub mod single;
pub mod whole;
