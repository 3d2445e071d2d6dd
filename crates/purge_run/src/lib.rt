//! The purge: everything that was deployed is taken off, originals go back to their paths, and what
//! others put over links is set aside.
#![tactic(auto)]

mod aside;
mod cases;
mod error;
pub mod laws;
mod lists;
mod missing;
mod plan;
mod purge;

pub use error::PurgeError;
pub use purge::purge_plan;
