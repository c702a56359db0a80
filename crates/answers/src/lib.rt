// Writes the answers to the lines of a script.
#![tactic(auto)]

pub mod answer;
