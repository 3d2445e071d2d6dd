//! Plans of deployments on a disk in memory, made and carried out. The crate has tests alone, so
//! that the crates that they are of need no disk in memory.
#![tactic(auto)]

#[cfg(test)]
mod tests;
