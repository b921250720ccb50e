// Which slots an instruction reads and writes: operands.rs of the source, by one table of field patterns.
#![tactic(auto)]

pub mod bytes;
pub mod instruction;
pub mod iter;
pub mod kind;
pub mod kinds;
pub mod pattern;
pub mod slots;
