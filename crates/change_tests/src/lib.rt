//! Changes by others on a disk in memory. The crate has tests alone, so that the look for changes
//! needs no disk in memory.
#![tactic(auto)]

#[cfg(test)]
mod tests;
