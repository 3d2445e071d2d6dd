//! Tests of the crate `intent_journal` on a disk in memory. The crate has tests alone.
#![tactic(auto)]

#[cfg(test)]
mod found_tests;
#[cfg(test)]
mod intents;
#[cfg(test)]
mod journal_tests;
#[cfg(test)]
mod looks;
#[cfg(test)]
mod ready_tests;
#[cfg(test)]
mod spent;
#[cfg(test)]
mod temp_tests;
