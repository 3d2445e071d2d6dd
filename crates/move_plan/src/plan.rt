// A plan: what a command moves.
use crate::{Places, Saves, Sets};
use manifest_json::Manifest;
use tree_fs::Place;

/// A place that gets the file of its source, or none.
#[derive(Drop)]
pub struct SetRow {
    pub to: Place,
    pub from: Option<Place>,
    /// Where the file that stood at the destination stays until the clears.
    pub back: Option<Place>,
}

/// What a command moves.
#[derive(Drop)]
pub struct Plan {
    /// The folders to make.
    pub folders: Places,
    /// The files that get a second name.
    pub saves: Saves,
    /// The places that get a file, or none.
    pub sets: Sets,
    /// The new manifest; `None` takes the manifest away.
    pub manifest: Option<Manifest>,
    /// The names to remove at the end.
    pub clears: Places,
    /// The folders to take off.
    pub folders_off: Places,
}
