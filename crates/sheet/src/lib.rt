// The batch sheet: a table in one handed-in buffer, with a journal of its changes.
#![tactic(auto)]

pub mod cell;
pub mod opening;
pub mod sheet;
