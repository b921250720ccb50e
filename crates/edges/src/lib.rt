// The edges between blocks: the last loop of `graph` and `reachability` of flow.rs, over the words of scratch.
#![tactic(auto)]

pub mod predecessors;
pub mod reachability;
