//! Tests of the crate `recover_run` on a disk in memory. The crate has tests alone.
#![tactic(auto)]

#[cfg(test)]
mod answer_tests;
#[cfg(test)]
mod intents;
#[cfg(test)]
mod looks;
#[cfg(test)]
mod runs;
#[cfg(test)]
mod stop_tests;
