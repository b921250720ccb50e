// The checks of one record of a sheet.
#![tactic(auto)]

pub mod record;
