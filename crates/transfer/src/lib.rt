// A block's new set from its neighbors' sets: `incoming` and `live_out` of flow.rs, and the transfer of solver.rs, over the words of both buffers.
#![tactic(auto)]

pub mod compute;
pub mod direction;
