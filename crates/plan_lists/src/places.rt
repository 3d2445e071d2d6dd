// Paths in their order, and their places in the game folder.
ghost use Rattle.std.specs.Prelude.{◌≡◌, ◌++◌, IfOk, OnOk, map, option_to_list};
ghost use Rattle.manifest_json.specs.Paths.{AreRising};
ghost use Rattle.stage_scan.specs.Files.{HasSamePaths};
ghost use Rattle.tree_fs.specs.Spot.{spot_of};
ghost use Rattle.tree_fs.specs.Places.{game_spot};

use rel_paths::RelPath;
use std::alloc::{AllocError, Global};
use tree_fs::Place;

/// Puts an item behind these, where there is one.
pub fn push_some<T: Drop>(items: &mut Vec<T>, item: Option<T>) -> Result<(), AllocError>
    ensures { OnOk result (items.new.items ≡ items.old.items ++ option_to_list item) }
{
    if let Some(item) = item {
        items.push(item)?;
    }
    Ok(())
}

/// These paths in their order, each once.
pub fn in_order(mut paths: Vec<RelPath>) -> Result<Vec<RelPath>, AllocError>
    ensures rise { IfOk result (λ left. AreRising left.items) }
    ensures same { IfOk result (λ left. HasSamePaths paths.items left.items) }
{
    paths.sort()?;
    paths.dedup();
    Ok(paths)
}

/// The places of paths in the game folder.
pub fn game_places(alloc: Global, paths: &[RelPath]) -> Result<Vec<Place>, AllocError>
    ensures { IfOk result (λ places. map spot_of places.items ≡ map game_spot paths.now) }
{
    let mut places = Vec::with_capacity(alloc, paths.len())?;
    for path in paths {
        places.push(Place::game(alloc, path)?)?;
    }
    Ok(places)
}
