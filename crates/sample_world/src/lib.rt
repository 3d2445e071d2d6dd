//! The sample: a large valid world on a disk in memory, made from a number.
//!
//! `specs/` tells which files it has, one by one, and what disk that is. The tests stand in
//! `sample_tests`.
#![tactic(auto)]

mod game;
mod mods;
mod names;
mod places;
mod profile;
mod putting;
mod world;

pub use world::make;
