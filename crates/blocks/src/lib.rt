// The second loop of `graph` in flow.rs: the blocks one by one, with their words, their edges and their rows.
#![tactic(auto)]

pub mod blocks;
mod span;
mod successors;
pub mod transfer;
