//! The steps that carry out a plan.
//!
//! A step does all its links and unlinks, and then syncs each folder that they lie in once. From
//! its start on it takes no memory but for the one place that `SourceGone` or `Blocked` carries.
//! The tests are in the crate `exec_tests`.
#![tactic(auto)]

mod begun;
mod clears;
mod entry;
mod error;
mod folders;
mod held;
mod manifest;
mod mark;
mod off;
mod saves;
mod sets;
mod syncs;
mod whole;

pub use error::ExecError;
pub use folders::make_folders;
pub use manifest::put_manifest;
pub use off::do_clears;
pub use saves::do_saves;
pub use sets::do_sets;
pub use whole::{carry_out_clear, carry_out_set, execute};
