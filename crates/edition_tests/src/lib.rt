// Examples of what acts through a layout, with a layout of their own beside the library's.
#![tactic(auto)]

pub mod mirrored;
#[cfg(test)]
mod tests;
