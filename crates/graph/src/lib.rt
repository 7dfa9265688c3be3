// The chain: files end to end in one lent buffer, named by a lent list.
#![tactic(auto)]

pub mod init;
pub mod locate;
mod survey;
