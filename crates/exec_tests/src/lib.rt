//! Tests of the crate `plan_exec` on a disk in memory. The crate has tests alone.
#![tactic(auto)]

#[cfg(test)]
mod carrying;
#[cfg(test)]
mod deployments;
#[cfg(test)]
mod looks;
#[cfg(test)]
mod manifests;
#[cfg(test)]
mod plans;
#[cfg(test)]
mod recovery;
#[cfg(test)]
mod step_tests;
#[cfg(test)]
mod stop_tests;
#[cfg(test)]
mod whole_tests;
