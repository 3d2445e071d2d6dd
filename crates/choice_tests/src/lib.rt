//! Inputs about changes, line by line. The crate has tests alone, so that the reading of choices
//! needs no source in memory.
#![tactic(auto)]

#[cfg(test)]
mod tests;
