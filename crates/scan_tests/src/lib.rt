//! Scans of mods and digests of files on a disk in memory. The crate has tests alone, so that the
//! scan needs no disk in memory.
#![tactic(auto)]

#[cfg(test)]
mod list_tests;
#[cfg(test)]
mod tests;
