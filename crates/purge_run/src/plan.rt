// The plan of a purge.
ghost use Rattle.std.specs.Prelude.{◌≡◌, [], None, IfOk, map};
ghost use Rattle.std.specs.List.{AllByRecursion};
ghost use Rattle.tree_fs.specs.Calls.{HasCause};
ghost use Rattle.tree_fs.specs.Story.{disk_of};
ghost use Rattle.backup_keep.specs.Places.{aside_folder};
ghost use Rattle.manifest_json.specs.Sound.{IsRow};
ghost use Rattle.move_plan.specs.Idle.{IsIdle};
ghost use Rattle.purge_run.specs.Plans.{CanPurge, PurgePlan};
ghost use Rattle.purge_run.specs.Refusals.{SetsSomeAside};
ghost use Rattle.purge_run.specs.Told.{case_seen, told};

use crate::cases::RowCase;
use crate::lists::{Which, paths_of, saves_of, sets_of};
use crate::missing::aside_folders;
use manifest_json::Manifest;
use move_plan::{Places, Plan, Saves, Sets};
use plan_lists::{game_places, own_folders};
use std::alloc::Global;
use tree_fs::{Tree, TreeError};

/// The plan of a purge where nothing is in the way. What is set aside has this number, and it is
/// told whether `keep/aside` is there.
pub(crate) fn plan_of<T: Tree>(
    alloc: Global,
    tree: &mut T,
    old: &Manifest,
    cases: &[RowCase],
    number: u32,
    is_there: bool,
) -> Result<Plan, TreeError>
    requires good { AllByRecursion (λ c. IsRow c.row.now) cases.now }
    requires can { T.tells → CanPurge (disk_of (T.story tree.old)) old.now number }
    requires cases { T.tells →
        map case_seen cases.now ≡ map (told (disk_of (T.story tree.old))) old.now.rows }
    requires there { T.tells →
        let a = disk_of (T.story tree.old) in
        SetsSomeAside a old.now.rows → is_there ≡ a.folders aside_folder }
    ensures planned { T.tells →
        IfOk result (PurgePlan (disk_of (T.story tree.old)) old.now number) }
    ensures idle { cases.now ≡ [] → old.now.folders ≡ [] → IfOk result (λ plan. IsIdle plan None) }
    ensures same { T.tells → T.story tree.new ≡ T.story tree.old }
    ensures cause { HasCause (T.faults tree.old) (T.faults tree.new) result }
{
    let folders = aside_folders(alloc, number, is_there, cases)?;
    let saves = saves_of(alloc, number, cases)?;
    let sets = sets_of(alloc, number, cases)?;
    let backups = paths_of(alloc, Which::Backups, cases)?;
    let clears = game_places(alloc, &backups)?;
    let restored = paths_of(alloc, Which::Restored, cases)?;
    let emptied = paths_of(alloc, Which::Emptied, cases)?;
    let own = own_folders(
        alloc,
        tree,
        old.folders.as_slice(),
        restored.as_slice(),
        &emptied,
    )?;
    let folders_off = game_places(alloc, &own.off)?;
    Ok(Plan {
        folders: Places::new(folders),
        saves: Saves::new(saves),
        sets: Sets::new(sets),
        manifest: None,
        clears: Places::new(clears),
        folders_off: Places::new(folders_off),
    })
}
