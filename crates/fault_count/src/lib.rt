//! Counts of faults: how often a tree, a source or a sink answered that it failed.
//!
//! Whoever is handed such an object is told its count, so that an answer that blames the object
//! can be checked against it. The words for this, which all crates share, stand in specs/. The
//! test stands in the crate `value_tests`.
#![tactic(auto)]

mod count;

pub use count::FaultCount;
