//! Which paths more than one mod provides, what decided each, and which mods share a path without a
//! rule between them.
//!
//! `conflicts` goes by `winner_table`'s list of providers. Which node leads to which along edges is
//! found once, from the last node of the load order on; so is which nodes share a path.
#![tactic(auto)]

mod marks;
mod pairs;
mod reach;
mod reasons;
mod relation;
mod report;

pub use report::{PathReport, Report, Why, conflicts};
