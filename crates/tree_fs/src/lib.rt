//! Places, the model of a disk, and the trait by which the engine sees a file system.
//!
//! `specs/` holds the model: a disk's folders, the values that each place may hold after a stop,
//! files with their bytes, what one step does, what a stop leaves, and what a call adds to the
//! story of a tree. The tests stand in `tree_tests`.
#![tactic(auto)]

mod compare;
mod name;
mod op;
mod place;
mod tree;

pub use name::{Entry, Kind, Name};
pub use op::{Bytes, Op};
pub use place::{Place, Root};
pub use tree::{Tree, TreeError};
