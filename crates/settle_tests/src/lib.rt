//! Settlements of small worlds on a disk in memory, planned and carried out. The crate has tests
//! alone, so that the plan of a settlement needs no disk in memory.
#![tactic(auto)]

#[cfg(test)]
mod tests;
