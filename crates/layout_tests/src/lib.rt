// Examples of the three layouts, and of reading through them, for both kinds of cell.
#![tactic(auto)]

#[cfg(test)]
mod tests;
