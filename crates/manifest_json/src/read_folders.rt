// Folders read from a JSON value.
ghost use Rattle.std.specs.Prelude.{◌≡◌, ◌++◌, ◌∷◌, [], true, IfOk, OnOk, map, reverse};
ghost use Rattle.std.specs.List.{AllByRecursion};
ghost use Rattle.serde_json.specs.View.{view};
ghost use Rattle.manifest_json.specs.Answers.{Reads};
ghost use Rattle.manifest_json.specs.Folders.{folder_alone, folders_from};
ghost use Rattle.manifest_json.specs.Paths.{is_above};
ghost use Rattle.manifest_json.specs.Sound.{AreFolders};

use crate::read_rows::read_path;
use crate::{ManifestError, Spot};
use rel_paths::RelPath;
use serde_json::Value;
use std::alloc::{AllocError, Global};

// The path that a value is, as folder i.
#[tactic(auto, unfolding(crate::specs::Folders::folder_alone))]
fn read_folder(alloc: Global, i: u64, value: &Value) -> Result<RelPath, ManifestError>
    ensures { Reads (λ path. path) (folder_alone i (view value.now)) result }
{
    let spot = Spot::Folder(i);
    let Some(text) = value.as_str() else {
        return Err(ManifestError::Shape(spot));
    };
    read_path(alloc, spot, text)
}

// Whether the path is above the last one.
fn is_above(folders: &[RelPath], path: &RelPath) -> bool
    ensures { result ≡ is_above (reverse folders.now) path.now }
{
    match folders.last() {
        None => true,
        Some(last) => *last < *path,
    }
}

fn push_folder(folders: &mut Vec<RelPath>, path: RelPath) -> Result<(), AllocError>
    ensures { OnOk result (folders.new.items ≡ folders.old.items ++ path ∷ []) }
{
    folders.push(path)?;
    Ok(())
}

// The folders that these values are.
pub(crate) fn read_folders(alloc: Global, items: &[Value]) -> Result<Vec<RelPath>, ManifestError>
    ensures reads { Reads (λ folders. folders.items) (folders_from [] 0 (map view items.now)) result }
    ensures kept { IfOk result (λ folders. AreFolders folders.items) }
{
    let mut folders = Vec::with_capacity(alloc, items.len())?;
    for item in items {
        let i = folders.len() as u64;
        let path = read_folder(alloc, i, item)?;
        if !is_above(&folders, &path) {
            return Err(ManifestError::Order(Spot::Folder(i)));
        }
        push_folder(&mut folders, path)?;
    }
    Ok(folders)
}
