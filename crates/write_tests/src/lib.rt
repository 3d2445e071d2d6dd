//! Tests of the crate `profile_write` on a disk in memory. The crate has tests alone.
#![tactic(auto)]

#[cfg(test)]
mod looks;
#[cfg(test)]
mod tests;
