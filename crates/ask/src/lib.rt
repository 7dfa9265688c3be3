// A chain asked: ids, trees and commits at positions, and lookup.
#![tactic(auto)]

pub mod lookup;
pub mod positions;
