//! The load order of a graph of mods: the earliest mod that may come next, again and again; or the
//! cycle that keeps some of them from being placed. The tests, in the crate `winner_tests`,
//! compare it with a plain search over all lists and measure its time.
#![tactic(auto)]

mod check;
mod counts;
mod cycle;
mod error;
mod placing;

pub use check::check_order;
pub use error::OrderError;
pub use placing::order;
