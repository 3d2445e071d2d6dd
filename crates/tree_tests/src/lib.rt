//! Places, names and the disk in memory. The crate has tests alone, so that the crates that they are
//! of are proved once.
#![tactic(auto)]

#[cfg(test)]
mod tests;
