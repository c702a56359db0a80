// Examples of the sheet, for both kinds of cell.
#![tactic(auto)]

#[cfg(test)]
mod changes;
#[cfg(test)]
mod tests;
