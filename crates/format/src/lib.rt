// What a record of a sheet is made of: numbers, a head, a type, fields; and the refusal table.
#![tactic(auto)]

pub mod bytes;
pub mod fields;
pub mod record;
pub mod refusal;
pub mod types;
