// The folders that are missing above what is set aside.
ghost use Rattle.std.specs.Prelude.{◌≡◌, ◌↔◌, IfOk, map, filter_map, option_map, None};
ghost use Rattle.std.specs.List.{AllByRecursion};
ghost use Rattle.tree_fs.specs.Spot.{Spot, spot_of};
ghost use Rattle.manifest_json.specs.Paths.{AreRising};
ghost use Rattle.manifest_json.specs.Sound.{IsRow};
ghost use Rattle.move_plan.specs.Entries.{Listed, listed, folder};
ghost use Rattle.move_plan.specs.Rules.{InOrder};
ghost use Rattle.purge_run.specs.Told.{case_seen, told_aside};
ghost use Rattle.purge_run.specs.MadeFolders.{made_at, AreAsideFolders};

use crate::cases::RowCase;
use crate::lists::aside_paths;
use plan_lists::{folders_above, push_some};
use rel_paths::RelPath;
use std::alloc::{AllocError, Global};
use tree_fs::{Place, Root};

// The place of a folder below `keep`, none where it is `aside`, and that is there.
fn made_place(folder: &RelPath, is_there: bool) -> Result<Option<Place>, AllocError>
    ensures { IfOk result (λ place. option_map spot_of place ≡ made_at is_there folder.now) }
{
    if is_there && folder.text() == "aside" {
        return Ok(None);
    }
    let path = folder.copy()?;
    Ok(Some(Place {
        root: Root::Keep,
        rel: Some(path),
    }))
}

// The places of these folders below `keep`, without that of `aside` where it is there.
fn made_places(alloc: Global, folders: &[RelPath], is_there: bool) -> Result<Vec<Place>, AllocError>
    ensures { IfOk result (λ places.
        map spot_of places.items ≡ filter_map (made_at is_there) folders.now) }
{
    let mut places = Vec::new(alloc);
    for folder in folders {
        let place = made_place(folder, is_there)?;
        push_some(&mut places, place)?;
    }
    Ok(places)
}

/// The folders above the places where files are set aside, without `keep/aside` where it is there,
/// in their order.
pub(crate) fn aside_folders(
    alloc: Global,
    number: u32,
    is_there: bool,
    cases: &[RowCase],
) -> Result<Vec<Place>, AllocError>
    requires { AllByRecursion (λ c. IsRow c.row.now) cases.now }
    ensures order { IfOk result (λ places.
        AllByRecursion (λ (e : Listed). InOrder e.entry e.front) (listed folder 0 None places.items)) }
    ensures are { IfOk result (λ places.
        AreAsideFolders is_there
        (filter_map (told_aside number) (map case_seen cases.now)) (map spot_of places.items)) }
{
    let paths = aside_paths(alloc, number, cases)?;
    let folders = folders_above(alloc, &paths)?;
    made_places(alloc, &folders, is_there)
}
