//! What a tour over a disk counts: its numbers as lines, and how files, scans and conflicts are
//! counted.
#![tactic(auto)]

mod files;
mod looks;
mod tour;

pub use files::count_files;
pub use looks::{count_decided, count_scanned};
pub use tour::{Tour, tour_lines};
