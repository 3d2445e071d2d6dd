//! The real disk, as a tree: three folders below a base folder, by the runtime's file system.
//!
//! This is the trusted edge: what the system does is no part of any proof. Proved is that no call
//! fails without a word: `Failed` comes only where the count of faults rose. The tests, in `tests`,
//! run it on real folders, and over a file system that records its calls.
#![tactic(auto)]

mod folder_set;
mod found;
mod host_tree;
mod listing;
mod looks;
mod new_folders;
mod reading;
mod real_disk;

pub use host_tree::HostTree;

#[cfg(test)]
mod tests;
