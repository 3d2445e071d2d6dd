//! Looks at what a mod has: its files, and the digest of a file.
//!
//! `scan_mod` walks a mod's folder. It takes a folder's entries in byte order of their names, and
//! a folder's content at its place. `digest_of` reads a file piece by piece. `place_below` says
//! where a mod's files are deployed below a base folder. Tests stand in the crate `scan_tests`.
#![tactic(auto)]

mod digest;
mod error;
mod files;
mod pending;
mod placed;
mod scan;
mod walk;

pub use digest::digest_of;
pub use error::ScanError;
pub use files::Files;
pub use placed::{BaseError, Placed, Sources, place_below};
pub use scan::{Scan, scan_mod};
