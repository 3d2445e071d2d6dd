//! A disk in memory, which tells its story. The tests stand in `tree_tests`.
#![tactic(auto)]

mod apply;
mod calls;
mod crash;
mod disk;
mod entries;
mod fail;
mod file;
mod folders;
mod mem_tree;
mod outside;
mod outside_step;
mod telling;
mod text;
mod worlds;

pub use fail::FailAt;
pub use mem_tree::MemTree;
pub use outside_step::OutsideStep;
