// The plan of a settlement.
ghost use Rattle.std.specs.Prelude.{◌≡◌, ◌↔◌, ◌⊎◌, ◌++◌, ℕ, List, IfOk, map, filter_map};
ghost use Rattle.std.specs.List.{AllByRecursion, Contains};
ghost use Rattle.rel_paths.specs.Names.{IsFreePath};
ghost use Rattle.tree_fs.specs.Calls.{HasCause};
ghost use Rattle.tree_fs.specs.Spot.{Spot, spot_of};
ghost use Rattle.tree_fs.specs.Places.{game_spot};
ghost use Rattle.tree_fs.specs.Story.{disk_of};
ghost use Rattle.backup_keep.specs.Places.{aside_folder};
ghost use Rattle.manifest_json.specs.Paths.{AreRising};
ghost use Rattle.manifest_json.specs.Sound.{AreRows};
ghost use Rattle.desk_model.specs.Settled.{Choice};
ghost use Rattle.change_settle.specs.Above.{AreAllAbove, AreMissingAbove, game_path, game_paths};
ghost use Rattle.change_settle.specs.Plans.{CanSettle, SettlePlan};
ghost use Rattle.change_settle.specs.Refusals.{SetsSomeAside};
ghost use Rattle.change_settle.specs.Rows.{EmptiesFile, HasItsFile};
ghost use Rattle.change_settle.specs.Steps.{step_task};
ghost use Rattle.change_settle.specs.Tasks.{step_row, step_seen, steps_of, task_restored, tasks_of};

use crate::folders::{emptied_paths, held_paths};
use crate::lists::{clears_of, saves_of, sets_of};
use crate::made::made_folders;
use crate::rows::next_rows;
use crate::walk::RowStep;
use manifest_json::{Manifest, Paths, Rows};
use move_plan::{Places, Plan, Saves, Sets};
use plan_lists::{game_places, in_order, own_folders, push_some};
use rel_paths::RelPath;
use std::alloc::{AllocError, Global};
use tree_fs::{Place, Root, Tree, TreeError};

// The path of a folder below the game folder.
fn game_path(folder: &Place) -> Result<Option<RelPath>, AllocError>
    ensures { IfOk result (λ path. path ≡ game_path folder.now) }
{
    match folder.root {
        Root::Game => match &folder.rel {
            Some(path) => Ok(Some(path.copy()?)),
            None => Ok(None),
        },
        Root::Stage => Ok(None),
        Root::Keep => Ok(None),
    }
}

// The paths of those of these folders that are below the game folder, behind these.
fn with_made(mut kept: Vec<RelPath>, made: &[Place]) -> Result<Vec<RelPath>, AllocError>
    ensures { IfOk result (λ all. all.items ≡ kept.items ++ game_paths made.now) }
{
    for folder in made {
        let path = game_path(folder)?;
        push_some(&mut kept, path)?;
    }
    Ok(kept)
}

// The own folders after: those that stay, and those that are made.
fn own_after(kept: Vec<RelPath>, made: &[Place]) -> Result<Paths, AllocError>
    requires kept { AllByRecursion IsFreePath kept.items }
    requires made { AllByRecursion IsFreePath (game_paths made.now) }
    ensures rise { IfOk result (λ own. AreRising own) }
    ensures same { IfOk result (λ own. (p : List ℕ)
        → (Contains own p
        ↔ Contains kept.items p ⊎ Contains (map spot_of made.now) (game_spot p))) }
{
    let all = in_order(with_made(kept, made)?)?;
    Ok(Paths::new(all))
}

/// The plan of a settlement where nothing is in the way. `missing` are the missing folders above
/// what is put back. What is set aside has this number, and it is told whether `keep/aside` is
/// there.
pub(crate) fn plan_of<T: Tree>(
    alloc: Global,
    tree: &mut T,
    old: &Manifest,
    steps: &[RowStep],
    missing: Vec<Place>,
    number: u32,
    is_there: bool,
) -> Result<Plan, TreeError>
    requires kept { AreRows old.now.rows }
    requires rows { map step_row steps.now ≡ old.now.rows }
    requires above { AreAllAbove (filter_map task_restored (map step_task steps.now))
        (map spot_of missing.items) }
    requires told { T.tells →
        AllByRecursion (λ s. HasItsFile (disk_of (T.story tree.old)) (step_task s)) steps.now }
    requires stood { T.tells →
        AllByRecursion (λ s. EmptiesFile (disk_of (T.story tree.old)) (step_seen s)) steps.now }
    ensures planned { T.tells →
        let a = disk_of (T.story tree.old) in
        (choice : Choice) → CanSettle choice a old.now number
        → map step_seen steps.now ≡ steps_of choice a old.now.rows
        → AreMissingAbove a (filter_map task_restored (tasks_of choice a old.now.rows))
        (map spot_of missing.items)
        → (SetsSomeAside choice a old.now.rows → is_there ≡ a.folders aside_folder)
        → IfOk result (SettlePlan choice a old.now number) }
    ensures same { T.tells → T.story tree.new ≡ T.story tree.old }
    ensures cause { HasCause (T.faults tree.old) (T.faults tree.new) result }
{
    let sets = sets_of(alloc, steps, number)?;
    let saves = saves_of(alloc, &sets)?;
    let clears = clears_of(alloc, steps, number)?;
    let made = made_folders(alloc, missing, &saves, is_there)?;
    let held = in_order(held_paths(alloc, steps)?)?;
    let emptied = in_order(emptied_paths(alloc, steps)?)?;
    let own = own_folders(
        alloc,
        tree,
        old.folders.as_slice(),
        held.as_slice(),
        &emptied,
    )?;
    let folders_off = game_places(alloc, &own.off)?;
    let folders = own_after(own.kept, &made)?;
    let rows = Rows::new(next_rows(alloc, tree, steps)?);
    Ok(Plan {
        folders: Places::new(made),
        saves: Saves::new(saves),
        sets: Sets::new(sets),
        manifest: Some(Manifest { rows, folders }),
        clears: Places::new(clears),
        folders_off: Places::new(folders_off),
    })
}
