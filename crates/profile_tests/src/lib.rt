//! Profiles as texts, and edits of them. The crate has tests alone, so that the two crates below
//! are proved without them.
#![tactic(auto)]

#[cfg(test)]
mod tests;
