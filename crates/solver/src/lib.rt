// The visits of `propagate` of solver.rs, over the words of both buffers.
#![tactic(auto)]

mod dependents;
pub mod drain;
pub mod ring;
pub mod seed;
