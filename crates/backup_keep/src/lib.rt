//! Where files are kept while a deployment stands: a game file at its backup place, and what is set
//! aside below `keep/aside`.
//!
//! The tests are in the crate `record_tests`.
#![tactic(auto)]

mod error;
mod next;
mod number;
mod places;

pub use error::KeepError;
pub use next::next_aside;
pub use places::{aside_place, backup_place};
