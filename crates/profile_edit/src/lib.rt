//! Edits of a profile: mods enabled and disabled, rules and overrides added and dropped, releases of
//! mods, and the step to version 2.
//!
//! The tests are in the crate `profile_tests`.
#![tactic(auto)]

mod dispatch;
mod edit;
mod error;
mod mods;
mod overrides;
mod releases;
mod rules;
mod upgrade;

pub use dispatch::apply;
pub use edit::Edit;
pub use error::EditError;
