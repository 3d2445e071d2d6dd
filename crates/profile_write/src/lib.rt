//! The profile's file is written: its new text comes to its place by way of a temp, so that a stop
//! leaves the old text there or the new one.
//!
//! An edit needs no intent, since nothing but the profile changes.
#![tactic(auto)]

mod put;
mod write;

pub use put::put_profile;
pub use write::write_profile;
