// Reads the lines of a script.
//
// A line is a command's word and numbers, parted by single blanks, or a remark, which begins with `#`.
#![tactic(auto)]

pub mod command;
pub mod number;
pub mod token;
pub mod words;
