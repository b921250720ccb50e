// A sheet that passed the checks: its instructions and slots, read where they stand, and the sets of its parameters and host slots.
#![tactic(auto)]

pub mod checked;
pub mod placed;
pub mod sets;
pub mod slot;
