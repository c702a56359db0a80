// Examples of reading a script's lines.
#![tactic(auto)]

#[cfg(test)]
mod tests;
