//! The manifest of a deployment: its rows and folders, as JSON text. Tests stand in the crate
//! `record_tests`.
#![tactic(auto)]

mod digest;
mod error;
mod manifest;
mod nesting;
mod pieces;
mod print;
mod read;
mod read_folders;
mod read_rows;
mod sources;
mod spot;
mod version;

pub use digest::FileDigest;
pub use error::ManifestError;
pub use manifest::{Manifest, Paths, Row, Rows};
pub use print::{manifest_text, write_manifest};
pub use read::{manifest_from_json, read_manifest};
pub use spot::Spot;
pub use version::FormatVersion;
