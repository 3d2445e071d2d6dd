//! What others changed since a deployment: the rows of a manifest whose files aren't what was
//! deployed, each with its class.
//!
//! `quick_changes` reads no file. `all_changes` reads each file whose two names are still one file,
//! 65,536 bytes at a time, and so finds what was edited in place too. The tests are in the crate
//! `change_tests`.
#![tactic(auto)]

mod changes;
mod classes;
mod error;
mod places;

pub use change_choices::Class;
pub use changes::{Change, all_changes, quick_changes};
pub use error::ChangeError;
