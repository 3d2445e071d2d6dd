//! The rules of a profile's enabled mods: which mods have to load before which, and the first rule
//! that fails. Tests stand in the crate `winner_tests`.
#![tactic(auto)]

mod checks;
mod edges;
mod error;
mod graph;
mod nodes;

pub use checks::check_rules;
pub use edges::graph_of;
pub use error::RuleError;
pub use graph::Graph;
