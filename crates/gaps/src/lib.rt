// A gap of lines in a sheet, on its buffers: the questions, the cells moved apart, and the filling. Side, place and count
// come one by one, as in the sheet's calls that hand them on and in the note of the entry; the table makes a `Block` of
// them.
#![tactic(auto)]

pub mod filling;
pub mod opening;
mod taking;
