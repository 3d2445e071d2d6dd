//! Graphs of rules and their orders, runs that are merged, the winners of small worlds, what is
//! reported of them, and what all this costs. The crate has tests alone, so that the crates that they
//! are of are proved once.
#![tactic(auto)]

#[cfg(test)]
mod order_tests;
#[cfg(test)]
mod rule_tests;
#[cfg(test)]
mod run_tests;
#[cfg(test)]
mod tests;
