//! Whole commands on a disk in memory. The crate has tests alone, so that the engine needs no disk
//! in memory. Most tests are cases of tables: `tables.rt` says how a table is written, and `script.rt`
//! how its lines are.
#![tactic(auto)]

#[cfg(test)]
mod batch_tests;
#[cfg(test)]
mod check_tests;
#[cfg(test)]
mod conflict_tests;
#[cfg(test)]
mod deploy_tests;
#[cfg(test)]
mod edit_stop_tests;
#[cfg(test)]
mod edit_tests;
#[cfg(test)]
mod fault_tests;
#[cfg(test)]
mod guard_tests;
#[cfg(test)]
mod input_tests;
#[cfg(test)]
mod manifest_tests;
#[cfg(test)]
mod manifests;
#[cfg(test)]
mod order_tests;
#[cfg(test)]
mod plan_tests;
#[cfg(test)]
mod profile_tests;
#[cfg(test)]
mod purge_stop_tests;
#[cfg(test)]
mod purge_tests;
#[cfg(test)]
mod recover_tests;
#[cfg(test)]
mod script;
#[cfg(test)]
mod settle_stop_tests;
#[cfg(test)]
mod settle_tests;
#[cfg(test)]
mod status_tests;
#[cfg(test)]
mod stop_tests;
#[cfg(test)]
mod stops;
#[cfg(test)]
mod tables;
#[cfg(test)]
mod winner_tests;
#[cfg(test)]
mod worlds;
