//! Words of command lines and the commands that they say. The crate has tests alone, so that they
//! are proved apart from the reader of words.
#![tactic(auto)]

#[cfg(test)]
mod tests;
