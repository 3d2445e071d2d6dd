//! Tests of the crate `io_edge`. The crate has tests alone, so that `io_edge` is proved once.
#![tactic(auto)]

#[cfg(test)]
mod tests;
