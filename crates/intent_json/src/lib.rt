//! The text of an intent: a plan that a command has begun, and how far it has come.
//!
//! The tests are in the crate `record_tests`.
#![tactic(auto)]

mod intent;
mod places;
mod print;
mod read;
mod read_places;

pub use intent::{Intent, Phase};
pub use print::intent_text;
pub use read::read_intent;
