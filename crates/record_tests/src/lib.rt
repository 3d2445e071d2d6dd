//! Tests of the crates `manifest_json`, `move_plan`, `backup_keep` and `intent_json`, and what manifests
//! cost. The crate has tests alone, so that those need no disk in memory and are proved once.
#![tactic(auto)]

#[cfg(test)]
mod intent_tests;
#[cfg(test)]
mod keep_tests;
#[cfg(test)]
mod manifest_tests;
#[cfg(test)]
mod manifest_times;
#[cfg(test)]
mod manifests;
#[cfg(test)]
mod plan_tests;
#[cfg(test)]
mod plans;
