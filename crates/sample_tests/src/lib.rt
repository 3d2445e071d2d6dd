//! The sample world of some numbers, and tours over it. The crate has tests alone, so that the sample
//! and the engine need no helpers of tests.
#![tactic(auto)]

#[cfg(test)]
mod tour_tests;
#[cfg(test)]
mod world_tests;
