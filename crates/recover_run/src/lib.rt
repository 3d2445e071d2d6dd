//! Recovery: what a stopped command has begun is carried to its end.
//!
//! The tests are in the crate `recover_tests`.
#![tactic(auto)]

mod error;
mod form;
mod intent;
mod recovered;
mod whole;

pub use error::RecoverError;
pub use intent::resume;
pub use recovered::Recovered;
pub use whole::recover;
