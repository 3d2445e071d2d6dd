//! The intent journal: a plan that is begun is written to `keep` before it is carried out, so that
//! a command that is stopped can be ended later.
//!
//! The tests are in the crate `journal_tests`.
#![tactic(auto)]

mod bytes;
mod error;
mod find;
mod folders;
mod guards;
mod journal;
mod parents;
mod ready;
mod sweep;
mod temp;
mod temps;
mod texts;

pub use bytes::control_bytes;
pub use error::{IntentError, ReadyError};
pub use find::{adopt_intent, find_intent};
pub use guards::{Held, OpenIntent, TempFile, leave};
pub use journal::{begin, finish, mark_clear};
pub use ready::{Ready, prepare};
pub use sweep::sweep_temps;
pub use temp::Temp;
pub use temps::{discard, install, write_temp};
