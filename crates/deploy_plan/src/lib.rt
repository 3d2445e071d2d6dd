//! The plan of a deployment: which files get a second name, which go back, and why there may be no
//! plan.
#![tactic(auto)]

mod cases;
mod deploy;
mod error;
mod folders;
pub mod laws;
mod lists;
mod parents;
mod plan;
mod refuse;
mod rows;
mod search;
mod steps;
mod turned;
mod wins;

pub use deploy::make_plan;
pub use error::PlanError;
