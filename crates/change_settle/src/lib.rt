//! Settling: each change by others is answered by the action that was chosen for it, and afterwards
//! every row is clean.
#![tactic(auto)]

mod acts;
mod aside;
mod decider;
mod error;
mod folders;
pub mod laws;
mod lists;
mod looks;
mod made;
mod places;
mod plan;
mod rows;
mod settle;
mod tasks;
mod walk;

pub use decider::Decider;
pub use error::SettleError;
pub use settle::settle_plan;
