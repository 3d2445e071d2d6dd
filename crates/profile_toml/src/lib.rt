//! The profile of version 1 or 2: its mods in order with their rules, releases and types, and its
//! overrides, as TOML text.
//!
//! The tests are in the crate `profile_tests`.
#![tactic(auto)]

mod checks;
mod error;
mod extra;
mod key_path;
mod maps;
mod mod_entry;
mod mod_type;
mod optional;
mod override_entry;
mod pieces;
mod print;
mod profile;
mod range;
mod read;
mod read_mods;
mod read_overrides;
mod read_rules;
mod read_types;
mod release;
mod rule;

pub use error::ProfileError;
pub use extra::Extra;
pub use mod_entry::ModEntry;
pub use mod_type::ModType;
pub use override_entry::Override;
pub use print::print_profile;
pub use profile::{Profile, default_profile};
pub use range::{Range, RangeError};
pub use read::read_profile;
pub use release::{Release, ReleaseError};
pub use rule::{Rule, RuleKind};
