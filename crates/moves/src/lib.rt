// Moves of blocks of cells inside one buffer, and on top of them lines of a table put in and taken out, after
// nalgebra's `edition.rs`.
#![tactic(auto)]

pub mod blocks;
pub mod edition;
pub mod store;
pub mod vec_storage;
