//! What differs from a deployment's row, what a settlement may do about it, and the choices of a
//! settlement. Tests stand in the crate `value_tests`.
#![tactic(auto)]

mod action;
mod choices;
mod class;
mod path_actions;

pub use action::{Action, allowed};
pub use choices::Choices;
pub use class::Class;
pub use path_actions::PathActions;
