//! What any plan moves, place by place, which folders it makes and takes off, and when it is sound:
//! definitions, and their laws.
#![tactic(auto)]

pub mod laws;
