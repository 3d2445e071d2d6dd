//! Tests of the crates `fault_count`, `rel_paths` and `change_choices`. The crate has tests alone, so
//! that those are proved once.
#![tactic(auto)]

#[cfg(test)]
mod choice_tests;
#[cfg(test)]
mod count_tests;
#[cfg(test)]
mod path_tests;
