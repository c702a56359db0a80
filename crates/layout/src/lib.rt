// Where the cells of a table lie in a buffer, and why a call is refused.
#![tactic(auto)]

pub mod indexing;
pub mod matrix_view;
pub mod refusal;
pub mod side;
pub mod storage;
pub mod vec_storage;
