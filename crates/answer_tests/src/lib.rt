//! Refusals and printed lines. The crate has tests alone, so that the crate that they are of is
//! proved once.
#![tactic(auto)]

#[cfg(test)]
mod tests;
