//! A plan carried out as a command does it: prepared, executed, and left alone where it moves
//! nothing.
#![tactic(auto)]

mod error;
pub mod laws;
mod run;

pub use error::RunError;
pub use run::carry_out;
