//! The words of a command line, read as the command that they say. The first word is read here and
//! the rest by `clap`, and the contract of `read_words` says nothing of it: the words' forms have a
//! definition of their own.
//!
//! The tests are in the crate `word_tests`.
#![tactic(auto)]

mod command;
mod error;
mod first_word;
mod given;
mod positional;
mod read;
mod settling;
mod values;

pub use command::Command;
pub use error::WordError;
pub use read::read_words;
