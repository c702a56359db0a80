// A call as a value, carried out on the buffers of a sheet: one, or a list of them.
#![tactic(auto)]

pub mod call;
pub mod playing;
