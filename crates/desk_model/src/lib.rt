//! What a user owns on a disk, what a command makes of it, and what every step of a history keeps:
//! definitions, and their laws.
#![tactic(auto)]

pub mod laws;
