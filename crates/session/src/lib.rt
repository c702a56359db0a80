// Carries out a script on a sheet of weights.
#![tactic(auto)]

pub mod obey;
pub mod run;
pub mod state;
