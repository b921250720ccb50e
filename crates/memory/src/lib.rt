// Lent words as cells: only this crate knows where a cell lies. A contract sees either buffer as its cells; the layout that they have is the run's.
#![tactic(auto)]

pub mod buffer;
pub mod edges;
pub mod layout;
pub mod names;
pub mod scratch;
pub mod sets;
pub mod views;
