// The buffers of a sheet: how they are read, the questions put before a change, and how a change is entered.
#![tactic(auto)]

pub mod entering;
pub mod parts;
pub mod questions;
