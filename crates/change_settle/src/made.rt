// The folders that a settlement makes.
ghost use Rattle.std.specs.Prelude.{◌≡◌, ◌⊎◌, ◌↔◌, IfOk, map, filter_map};
ghost use Rattle.std.specs.List.{Contains};
ghost use Rattle.tree_fs.specs.Spot.{Spot, spot_of};
ghost use Rattle.move_plan.specs.Rising.{AreRising};
ghost use Rattle.change_settle.specs.Above.{IsAboveOne, IsAsideAbove, new_aside};

use crate::aside::aside_folder;
use crate::places::{folders_above, in_order};
use plan_lists::push_some;
use std::alloc::{AllocError, Global};
use tree_fs::Place;

// The places where files are set aside.
fn aside_places(alloc: Global, saves: &[(Place, Place)]) -> Result<Vec<Place>, AllocError>
    ensures { IfOk result (λ places. places.items ≡ map (λ v. v.1) saves.now) }
{
    let mut places = Vec::with_capacity(alloc, saves.len())?;
    for save in saves {
        places.push(save.1.copy()?)?;
    }
    Ok(places)
}

// A folder above what is set aside, none where it is `keep/aside`, and that is there.
fn new_aside(folder: &Place, is_there: bool, aside: &Place) -> Result<Option<Place>, AllocError>
    ensures { IfOk result (λ place. place ≡ new_aside is_there aside.now folder.now) }
{
    if is_there && folder == aside {
        return Ok(None);
    }
    Ok(Some(folder.copy()?))
}

fn new_asides(
    alloc: Global,
    folders: &[Place],
    is_there: bool,
    aside: &Place,
) -> Result<Vec<Place>, AllocError>
    ensures { IfOk result (λ places.
        places.items ≡ filter_map (new_aside is_there aside.now) folders.now) }
{
    let mut places = Vec::new(alloc);
    for folder in folders {
        let place = new_aside(folder, is_there, aside)?;
        push_some(&mut places, place)?;
    }
    Ok(places)
}

/// The folders that are made: those that are missing above what is put back, and those above what
/// is set aside, without `keep/aside` where it is there.
pub(crate) fn made_folders(
    alloc: Global,
    mut missing: Vec<Place>,
    saves: &[(Place, Place)],
    is_there: bool,
) -> Result<Vec<Place>, AllocError>
    ensures rise { IfOk result (λ folders. AreRising folders.items) }
    ensures are { IfOk result (λ folders.
        (s : Spot) → (Contains (map spot_of folders.items) s
        ↔ Contains (map spot_of missing.items) s ⊎ IsAsideAbove is_there saves.now s)) }
{
    let asides = aside_places(alloc, saves)?;
    let above = folders_above(alloc, &asides)?;
    let aside = aside_folder(alloc)?;
    let mut new = new_asides(alloc, &above, is_there, &aside)?;
    missing.append(&mut new)?;
    in_order(missing)
}
