// The saves of a plan.
ghost use Rattle.std.specs.Prelude.{◌≡◌, IfErr, OnOk, List, length};
ghost use Rattle.std.specs.List.{Contains};
ghost use Rattle.fault_count.specs.Causes.{HasCause};
ghost use Rattle.tree_fs.specs.declared.place.Place.{Place};
ghost use Rattle.tree_fs.specs.Disk.{Disk};
ghost use Rattle.tree_fs.specs.Story.{Along, disk_of};
ghost use Rattle.desk_model.specs.Standing.{SavesDone};
ghost use Rattle.move_plan.specs.Rules.{PassesRules};
ghost use Rattle.move_plan.specs.Sound.{SoundPlan};
ghost use Rattle.desk_model.specs.Mid.{Mid};
ghost use Rattle.desk_model.specs.Stops.{Leads};
ghost use Rattle.plan_exec.specs.declared.error.ExecError.TheVariants.{Failed};
ghost use Rattle.intent_journal.specs.Ready.{AreFolders, saved_places};
ghost use Rattle.plan_exec.specs.Causes.{IsFault, NoneHas, StopsAtFirst, save_obstacle};
ghost use Rattle.intent_journal.specs.Counts.{SyncsAtMost};
ghost use Rattle.plan_exec.specs.Counts.{Runs};
ghost use Rattle.plan_exec.specs.Frames.{Saves};
ghost use Rattle.plan_exec.specs.Steps.{SaveWaits, FoldersMade, IsSaveDone, SavesReady, ToOutcomeOf};

use crate::ExecError;
use crate::entry::save_one;
use crate::syncs::sync_all;
use intent_journal::Ready;
use tree_fs::Tree;

// The saves, none of them synced.
fn save_all<T: Tree>(tree: &mut T, ready: &Ready) -> Result<(), ExecError>
    ensures stops { T.tells →
        Runs 0 (Saves ready.now (disk_of (T.story tree.old))) (T.story tree.old)
        (T.story tree.new) }
    ensures done { T.tells →
        OnOk result ((save : Place × Place) → Contains ready.now.saves save → IsSaveDone
        (disk_of (T.story tree.new)) save) }
    ensures free { T.tells →
        OnOk result (NoneHas (save_obstacle (disk_of (T.story tree.old))) ready.now.saves) }
    ensures errors { T.tells →
        IfErr result (StopsAtFirst (save_obstacle (disk_of (T.story tree.old)))
        (IsSaveDone (disk_of (T.story tree.new)))
        (SaveWaits (disk_of (T.story tree.old)) (disk_of (T.story tree.new)))
        ready.now.saves) }
    ensures rules { PassesRules ready.now }
    ensures cause { HasCause Failed (T.faults tree.old) (T.faults tree.new) result }
{
    let saves = ready.plan().saves.as_slice();
    let above = ready.save_parents();
    for i in 0..saves.len() {
        save_one(tree, &saves[i], &above[i])?;
    }
    Ok(())
}

/// The saves: each destination that is no file gets the file of its source. Then each folder of a
/// destination is synced once. `SourceGone` and `Blocked` come exactly for the first save that
/// can't be done, and those in front of it are done then. Where the set form of the plan stands
/// alone, every stop leads where the start leads; where its folders are made too, neither comes.
pub fn do_saves<T: Tree>(tree: &mut T, ready: &Ready) -> Result<(), ExecError>
    ensures stops { T.tells →
        SavesReady ready.now (disk_of (T.story tree.old)) → Along
        (Leads (ToOutcomeOf (disk_of (T.story tree.old)))) (T.story tree.old) (T.story tree.new) }
    ensures mid { T.tells →
        (a : Disk) → SoundPlan a ready.now → Mid a ready.now (disk_of (T.story tree.old)) →
        Along (Mid a ready.now) (T.story tree.old) (T.story tree.new) }
    ensures only { T.tells →
        Along (Saves ready.now (disk_of (T.story tree.old)))
        (T.story tree.old) (T.story tree.new) }
    ensures done { T.tells → OnOk result (SavesDone (disk_of (T.story tree.new)) ready.now) }
    ensures free { T.tells →
        OnOk result (NoneHas (save_obstacle (disk_of (T.story tree.old))) ready.now.saves) }
    ensures errors { T.tells →
        IfErr result (StopsAtFirst (save_obstacle (disk_of (T.story tree.old)))
        (IsSaveDone (disk_of (T.story tree.new)))
        (SaveWaits (disk_of (T.story tree.old)) (disk_of (T.story tree.new)))
        ready.now.saves) }
    ensures never { T.tells →
        SavesReady ready.now (disk_of (T.story tree.old)) →
        FoldersMade ready.now (disk_of (T.story tree.old)) → IfErr result IsFault }
    ensures syncs { T.tells →
        (folders : List Place) → AreFolders (saved_places ready.now) folders →
        SyncsAtMost (length folders) (T.story tree.old) (T.story tree.new) }
    ensures cause { HasCause Failed (T.faults tree.old) (T.faults tree.new) result }
{
    save_all(tree, ready)?;
    sync_all(tree, ready.save_folders())?;
    Ok(())
}
