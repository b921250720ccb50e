// The first half of `graph` of flow.rs: where blocks begin, and which block an instruction is in.
#![tactic(auto)]

pub mod leaders;
pub mod number;
