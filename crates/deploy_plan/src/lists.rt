// The sets, saves and clears of a deployment, from the case of each path.
ghost use Rattle.std.specs.Prelude.{◌≡◌, IfOk, map, filter_map, option_map, Some};
ghost use Rattle.std.specs.List.{AllByRecursion};
ghost use Rattle.tree_fs.specs.Spot.{spot_of};
ghost use Rattle.tree_fs.specs.Places.{game_spot};
ghost use Rattle.manifest_json.specs.Sound.{IsRow};
ghost use Rattle.desk_model.specs.Deployed.{won_spot};
ghost use Rattle.plan_model.specs.Lists.{spotted, ends_of};
ghost use Rattle.deploy_plan.specs.Order.{turned_ends, turned, PathsRise, HasSameEnds};
ghost use Rattle.plan_lists.specs.Order.{HasSameSpots};
ghost use Rattle.move_plan.specs.Rising.{AreRising};
ghost use Rattle.deploy_plan.specs.Told.{IsWin, IsGoodCase, win_seen, case_seen, told_path, told_set, told_save};
ghost use Rattle.deploy_plan.specs.Told.{told_clear, leaving, turning, coming, covering};

use crate::cases::PathCase;
use crate::wins::Won;
use backup_keep::backup_place;
use manifest_json::Row;
use move_plan::SetRow;
use plan_lists::{game_places, in_order, original, push_some, staged_row};
use rel_paths::RelPath;
use std::alloc::{AllocError, Global};
use std::mem;
use tree_fs::Place;

/// The place where a winner's file is unpacked.
pub(crate) fn staged_win(alloc: Global, win: Won) -> Result<Place, AllocError>
    requires { IsWin (win_seen win) }
    ensures { IfOk result (λ place. spot_of place ≡ won_spot (win_seen win.entry)) }
{
    Place::staged(alloc, win.mod_id, win.source)
}

// The set of a path that no mod wins any more.
fn leaving(alloc: Global, row: &Row, has_original: bool) -> Result<SetRow, AllocError>
    requires { IsRow row.now }
    ensures { IfOk result (λ set. Some (spotted set) ≡ told_set (leaving row.now has_original)) }
{
    let from = original(alloc, row, has_original)?;
    Ok(SetRow {
        to: Place::game(alloc, &row.path)?,
        from,
        back: Some(staged_row(alloc, row)?),
    })
}

// The set of a path that another mod or source wins.
fn turning(alloc: Global, row: &Row, win: Won) -> Result<SetRow, AllocError>
    requires row { IsRow row.now }
    requires win { IsWin (win_seen win) }
    ensures { IfOk result (λ set.
        Some (spotted set) ≡ told_set (turning row.now (win_seen win.entry))) }
{
    Ok(SetRow {
        to: Place::game(alloc, &row.path)?,
        from: Some(staged_win(alloc, win)?),
        back: Some(staged_row(alloc, row)?),
    })
}

// The set of a path where nothing stands.
fn coming(alloc: Global, win: Won) -> Result<SetRow, AllocError>
    requires { IsWin (win_seen win) }
    ensures { IfOk result (λ set. Some (spotted set) ≡ told_set (coming (win_seen win.entry))) }
{
    Ok(SetRow {
        to: Place::game(alloc, win.path)?,
        from: Some(staged_win(alloc, win)?),
        back: None,
    })
}

// The set of a path where a file of the game stands.
fn covering(alloc: Global, win: Won) -> Result<SetRow, AllocError>
    requires { IsWin (win_seen win) }
    ensures { IfOk result (λ set. Some (spotted set) ≡ told_set (covering (win_seen win.entry))) }
{
    Ok(SetRow {
        to: Place::game(alloc, win.path)?,
        from: Some(staged_win(alloc, win)?),
        back: Some(backup_place(alloc, win.path)?),
    })
}

// The set of a path, where there is one.
fn set_of(alloc: Global, case: PathCase) -> Result<Option<SetRow>, AllocError>
    requires { IsGoodCase (case_seen case) }
    ensures { IfOk result (λ set. option_map spotted set ≡ told_set (case_seen case.entry)) }
{
    match case {
        PathCase::Leaves(row, has_original) => Ok(Some(leaving(alloc, row, has_original)?)),
        PathCase::Stays(_) => Ok(None),
        PathCase::Turns(row, win) => Ok(Some(turning(alloc, row, win)?)),
        PathCase::Comes(win) => Ok(Some(coming(alloc, win)?)),
        PathCase::Covers(win) => Ok(Some(covering(alloc, win)?)),
    }
}

/// The sets, in the order of their places.
pub(crate) fn sets_of(alloc: Global, cases: &[PathCase]) -> Result<Vec<SetRow>, AllocError>
    requires { AllByRecursion (λ c. IsGoodCase (case_seen c)) cases.now }
    ensures { IfOk result (λ sets.
        map spotted sets.items ≡ filter_map told_set (map case_seen cases.now)) }
{
    let mut sets = Vec::new(alloc);
    for case in cases {
        let set = set_of(alloc, *case)?;
        push_some(&mut sets, set)?;
    }
    Ok(sets)
}

// The place that the file of a covered path is saved to, and the place of the file.
fn save_of(alloc: Global, case: PathCase) -> Result<Option<(Place, Place)>, AllocError>
    requires { IsGoodCase (case_seen case) }
    ensures { IfOk result (λ save. option_map turned_ends save ≡ told_save (case_seen case.entry)) }
{
    match case {
        PathCase::Leaves(_, _) => Ok(None),
        PathCase::Stays(_) => Ok(None),
        PathCase::Turns(_, _) => Ok(None),
        PathCase::Comes(_) => Ok(None),
        PathCase::Covers(win) => {
            let to = backup_place(alloc, win.path)?;
            let from = Place::game(alloc, win.path)?;
            Ok(Some((to, from)))
        }
    }
}

// The saves, each with the place that it leads to first, in path order.
fn saves_in_path_order(alloc: Global, cases: &[PathCase]) -> Result<Vec<(Place, Place)>, AllocError>
    requires { AllByRecursion (λ c. IsGoodCase (case_seen c)) cases.now }
    ensures { IfOk result (λ saves.
        map turned_ends saves.items ≡ filter_map told_save (map case_seen cases.now)) }
{
    let mut saves = Vec::new(alloc);
    for case in cases {
        let save = save_of(alloc, *case)?;
        push_some(&mut saves, save)?;
    }
    Ok(saves)
}

// The path of the backup that goes back to its path.
fn cleared_by(alloc: Global, case: PathCase) -> Result<Option<RelPath>, AllocError>
    requires { IsGoodCase (case_seen case) }
    ensures { IfOk result (λ path. option_map game_spot path ≡ told_clear (case_seen case.entry)) }
{
    match case {
        PathCase::Leaves(row, true) => Ok(Some(row.path.backup_name(alloc)?)),
        PathCase::Leaves(_, false) => Ok(None),
        PathCase::Stays(_) => Ok(None),
        PathCase::Turns(_, _) => Ok(None),
        PathCase::Comes(_) => Ok(None),
        PathCase::Covers(_) => Ok(None),
    }
}

// The paths of the backups that go back to their paths, in the order of the cases.
fn cleared_paths(alloc: Global, cases: &[PathCase]) -> Result<Vec<RelPath>, AllocError>
    requires { AllByRecursion (λ c. IsGoodCase (case_seen c)) cases.now }
    ensures { IfOk result (λ paths.
        map game_spot paths.items ≡ filter_map told_clear (map case_seen cases.now)) }
{
    let mut paths = Vec::new(alloc);
    for case in cases {
        let path = cleared_by(alloc, *case)?;
        push_some(&mut paths, path)?;
    }
    Ok(paths)
}

/// The clears, in their order: the backups that go back to their paths.
pub(crate) fn clears_of(alloc: Global, cases: &[PathCase]) -> Result<Vec<Place>, AllocError>
    requires { AllByRecursion (λ c. IsGoodCase (case_seen c)) cases.now }
    ensures order { IfOk result (λ clears. AreRising clears.items) }
    ensures same { IfOk result (λ clears. HasSameSpots (map spot_of clears.items)
        (filter_map told_clear (map case_seen cases.now))) }
{
    let paths = in_order(cleared_paths(alloc, cases)?)?;
    game_places(alloc, &paths)
}

// Each save turned.
fn turn_each(saves: &mut [(Place, Place)])
    ensures { saves.new ≡ map turned saves.old }
{
    for save in saves.iter_mut() {
        mem::swap(&mut save.0, &mut save.1);
    }
}

fn turned_all(mut saves: Vec<(Place, Place)>) -> Vec<(Place, Place)>
    ensures { result.items ≡ map turned saves.items }
{
    turn_each(saves.as_mut_slice());
    saves
}

/// The saves, in the order of the places that they lead to.
pub(crate) fn saves_of(alloc: Global, cases: &[PathCase]) -> Result<Vec<(Place, Place)>, AllocError>
    requires { AllByRecursion (λ c. IsGoodCase (case_seen c)) cases.now }
    ensures order { PathsRise (map (λ c. told_path (case_seen c)) cases.now)
        → IfOk result (λ saves. AreRising (map (λ s. s.1) saves.items)) }
    ensures same { IfOk result (λ saves. HasSameEnds (map ends_of saves.items)
        (filter_map told_save (map case_seen cases.now))) }
{
    let mut saves = saves_in_path_order(alloc, cases)?;
    saves.sort()?;
    Ok(turned_all(saves))
}
