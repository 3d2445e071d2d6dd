//! Purges of small worlds on a disk in memory. The crate has tests alone, so that the plan of a
//! purge needs no disk in memory.
#![tactic(auto)]

#[cfg(test)]
mod tests;
