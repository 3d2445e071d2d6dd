//! What a command moves on the disk, as a value: the plan, and the nine rules by which a plan is
//! sound by its data alone.
//!
//! The tests are in the crate `record_tests`.
#![tactic(auto)]

mod check;
mod fault;
mod idle;
mod lines;
mod lists;
mod marks;
mod named;
mod order;
mod places;
mod plan;
mod rules;
mod search;

pub use check::check_plan;
pub use fault::PlanFault;
pub use idle::is_idle;
pub use lines::plan_lines;
pub use lists::{Places, Saves, Sets};
pub use plan::{Plan, SetRow};
