// Lines that a list names: their runs, and how those are taken out of a table.
#![tactic(auto)]

pub mod cutting;
pub mod finding;
pub mod putting;
