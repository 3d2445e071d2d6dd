//! Which mod each path comes from.
//!
//! `winners` finds the winner of every path that the enabled mods provide: the override's mod where
//! it provides the path, otherwise the last one of the load order that does. It goes by
//! `all_providers`, which lists the provided paths, each with its providers, and that by
//! `merge_runs`, which merges runs that are already sorted. Tests stand in the crate
//! `winner_tests`.
#![tactic(auto)]

mod compare;
mod error;
mod folders;
mod order;
mod overrides;
mod provided;
mod providers;
mod runs;
mod wins;

pub use compare::Compare;
pub use error::WinError;
pub use order::PathOrder;
pub use provided::Provided;
pub use providers::{Providers, all_providers};
pub use runs::{MergeError, merge_runs};
pub use wins::{By, WinRow, winners};
