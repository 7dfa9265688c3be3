// The words of a line that a program over stored cases prints. They answer nothing: what is printed is compared with what is stored.
#![tactic(auto)]

pub mod print;
pub mod step;
