// The lists of a purge, from what was found of each row.
ghost use Rattle.std.specs.Prelude.{◌≡◌, IfOk, map, filter_map, option_map};
ghost use Rattle.std.specs.List.{AllByRecursion};
ghost use Rattle.rel_paths.specs.Names.{names_of};
ghost use Rattle.tree_fs.specs.Spot.{spot_of};
ghost use Rattle.tree_fs.specs.Places.{game_spot};
ghost use Rattle.manifest_json.specs.Paths.{AreRising};
ghost use Rattle.manifest_json.specs.Sound.{IsRow};
ghost use Rattle.plan_model.specs.Lists.{spotted, ends_of};
ghost use Rattle.plan_lists.specs.Order.{HasSameSpots};
ghost use Rattle.purge_run.specs.Holds.{aside_at};
ghost use Rattle.purge_run.specs.Told.{case_seen, told_set, told_save, told_aside, told_place, original_at, stands, emptied_by};

use crate::cases::{At, RowCase};
use backup_keep::aside_place;
use manifest_json::Row;
use move_plan::SetRow;
use plan_lists::{in_order, original, push_some, staged_row};
use rel_paths::RelPath;
use std::alloc::{AllocError, Global};
use tree_fs::Place;

// The place where the file at the path of a row is set aside.
fn aside_of(alloc: Global, number: u32, row: &Row) -> Result<Place, AllocError>
    requires { IsRow row.now }
    ensures { IfOk result (λ place. spot_of place ≡ aside_at number row.now.path) }
{
    let place = Place::game(alloc, &row.path)?;
    aside_place(alloc, number, &place)
}

// The set of a row's path, whose file stays at `back`.
fn set_row(
    alloc: Global,
    row: &Row,
    has_original: bool,
    back: Option<Place>,
) -> Result<SetRow, AllocError>
    requires { IsRow row.now }
    ensures to { IfOk result (λ set. spot_of set.to ≡ game_spot row.now.path) }
    ensures from { IfOk result (λ set.
        option_map spot_of set.from ≡ original_at row.now has_original) }
    ensures back { IfOk result (λ set. set.back ≡ back) }
{
    let from = original(alloc, row, has_original)?;
    Ok(SetRow {
        to: Place::game(alloc, &row.path)?,
        from,
        back,
    })
}

// The set of a row's path, where there is one.
fn set_of(alloc: Global, number: u32, case: RowCase) -> Result<Option<SetRow>, AllocError>
    requires { IsRow case.row.now }
    ensures { IfOk result (λ set. option_map spotted set ≡ told_set number (case_seen case.entry)) }
{
    match case.at {
        At::Linked => {
            let back = staged_row(alloc, case.row)?;
            let set = set_row(alloc, case.row, case.has_original, Some(back))?;
            Ok(Some(set))
        }
        At::Over => {
            let back = aside_of(alloc, number, case.row)?;
            let set = set_row(alloc, case.row, case.has_original, Some(back))?;
            Ok(Some(set))
        }
        At::Bare => {
            if !case.has_original {
                return Ok(None);
            }
            let set = set_row(alloc, case.row, true, None)?;
            Ok(Some(set))
        }
    }
}

/// The sets, in the order of their places.
pub(crate) fn sets_of(
    alloc: Global,
    number: u32,
    cases: &[RowCase],
) -> Result<Vec<SetRow>, AllocError>
    requires { AllByRecursion (λ c. IsRow c.row.now) cases.now }
    ensures { IfOk result (λ sets.
        map spotted sets.items ≡ filter_map (told_set number) (map case_seen cases.now)) }
{
    let mut sets = Vec::new(alloc);
    for case in cases {
        let set = set_of(alloc, number, *case)?;
        push_some(&mut sets, set)?;
    }
    Ok(sets)
}

// The file at a row's path, and where it is set aside.
fn save_of(alloc: Global, number: u32, case: RowCase) -> Result<Option<(Place, Place)>, AllocError>
    requires { IsRow case.row.now }
    ensures { IfOk result (λ save.
        option_map ends_of save ≡ told_save number (case_seen case.entry)) }
{
    match case.at {
        At::Linked => Ok(None),
        At::Over => {
            let from = Place::game(alloc, &case.row.path)?;
            let to = aside_of(alloc, number, case.row)?;
            Ok(Some((from, to)))
        }
        At::Bare => Ok(None),
    }
}

/// The saves, in the order of the places that they lead to.
pub(crate) fn saves_of(
    alloc: Global,
    number: u32,
    cases: &[RowCase],
) -> Result<Vec<(Place, Place)>, AllocError>
    requires { AllByRecursion (λ c. IsRow c.row.now) cases.now }
    ensures { IfOk result (λ saves.
        map ends_of saves.items ≡ filter_map (told_save number) (map case_seen cases.now)) }
{
    let mut saves = Vec::new(alloc);
    for case in cases {
        let save = save_of(alloc, number, *case)?;
        push_some(&mut saves, save)?;
    }
    Ok(saves)
}

// The path below `keep` where the file at a row's path is set aside.
fn aside_path(alloc: Global, number: u32, case: RowCase) -> Result<Option<RelPath>, AllocError>
    requires { IsRow case.row.now }
    ensures { IfOk result (λ path.
        option_map names_of path ≡ told_aside number (case_seen case.entry)) }
{
    match case.at {
        At::Linked => Ok(None),
        At::Over => {
            let place = aside_of(alloc, number, case.row)?;
            Ok(place.rel)
        }
        At::Bare => Ok(None),
    }
}

/// The paths below `keep` where files are set aside.
pub(crate) fn aside_paths(
    alloc: Global,
    number: u32,
    cases: &[RowCase],
) -> Result<Vec<RelPath>, AllocError>
    requires { AllByRecursion (λ c. IsRow c.row.now) cases.now }
    ensures { IfOk result (λ paths.
        map names_of paths.items ≡ filter_map (told_aside number) (map case_seen cases.now)) }
{
    let mut paths = Vec::new(alloc);
    for case in cases {
        let path = aside_path(alloc, number, *case)?;
        push_some(&mut paths, path)?;
    }
    Ok(paths)
}

/// Which paths of rows are meant.
#[derive(Clone, Copy)]
pub(crate) enum Which {
    /// Those where the original comes.
    Restored,
    /// Those where there is a file, and none is left.
    Emptied,
    /// The backups that originals leave.
    Backups,
}

// Whether a file stands at the path of a row.
fn stands(at: At) -> bool
    ensures { result ≡ stands at }
{
    match at {
        At::Linked | At::Over => true,
        At::Bare => false,
    }
}

// The path of a row without an original, where a file stands there.
fn emptied_path(case: RowCase) -> Result<Option<RelPath>, AllocError>
    ensures { IfOk result (λ path.
        option_map game_spot path ≡ emptied_by case.entry.row.now (stands case.entry.at)) }
{
    if stands(case.at) {
        Ok(Some(case.row.path.copy()?))
    } else {
        Ok(None)
    }
}

fn path_of(alloc: Global, which: Which, case: RowCase) -> Result<Option<RelPath>, AllocError>
    requires { IsRow case.row.now }
    ensures { IfOk result (λ path.
        option_map game_spot path ≡ told_place which (case_seen case.entry)) }
{
    match (which, case.has_original) {
        (Which::Restored, true) => Ok(Some(case.row.path.copy()?)),
        (Which::Restored, false) => Ok(None),
        (Which::Emptied, true) => Ok(None),
        (Which::Emptied, false) => emptied_path(case),
        (Which::Backups, true) => Ok(Some(case.row.path.backup_name(alloc)?)),
        (Which::Backups, false) => Ok(None),
    }
}

// These paths, in the order of the rows.
fn row_paths(alloc: Global, which: Which, cases: &[RowCase]) -> Result<Vec<RelPath>, AllocError>
    requires { AllByRecursion (λ c. IsRow c.row.now) cases.now }
    ensures { IfOk result (λ paths.
        map game_spot paths.items ≡ filter_map (told_place which) (map case_seen cases.now)) }
{
    let mut paths = Vec::new(alloc);
    for case in cases {
        let path = path_of(alloc, which, *case)?;
        push_some(&mut paths, path)?;
    }
    Ok(paths)
}

/// These paths of the rows, in their own order.
pub(crate) fn paths_of(
    alloc: Global,
    which: Which,
    cases: &[RowCase],
) -> Result<Vec<RelPath>, AllocError>
    requires { AllByRecursion (λ c. IsRow c.row.now) cases.now }
    ensures rise { IfOk result (λ paths. AreRising paths.items) }
    ensures same { IfOk result (λ paths. HasSameSpots (map game_spot paths.items)
        (filter_map (told_place which) (map case_seen cases.now))) }
{
    let paths = row_paths(alloc, which, cases)?;
    in_order(paths)
}
