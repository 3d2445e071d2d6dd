//! What the lines of an input say to do about the changes of a deployment: each has the path of a
//! change, a tab, and the word of an action that is allowed for the change. The tests are in the
//! crate `choice_tests`.
#![tactic(auto)]

mod answer;
mod changes;
mod error;
pub mod laws;
mod lines;
mod texts;

pub use error::InputError;
pub use lines::read_choices;
pub use texts::actions_by_text;
