// The sets of a plan.
ghost use Rattle.std.specs.Prelude.{◌≡◌, IfErr, OnOk, List, length};
ghost use Rattle.std.specs.List.{Contains};
ghost use Rattle.fault_count.specs.Causes.{HasCause};
ghost use Rattle.tree_fs.specs.declared.place.Place.{Place};
ghost use Rattle.tree_fs.specs.Disk.{Disk};
ghost use Rattle.tree_fs.specs.Story.{Along, disk_of};
ghost use Rattle.move_plan.specs.declared.plan.SetRow.{SetRow};
ghost use Rattle.desk_model.specs.Mid.{Mid};
ghost use Rattle.move_plan.specs.Rules.{PassesRules};
ghost use Rattle.desk_model.specs.Standing.{SavesDone};
ghost use Rattle.desk_model.specs.Stops.{Leads};
ghost use Rattle.plan_exec.specs.declared.error.ExecError.TheVariants.{Failed};
ghost use Rattle.intent_journal.specs.Ready.{AreFolders, set_places};
ghost use Rattle.plan_exec.specs.Causes.{IsFault, NoneHas, StopsAtFirst, set_obstacle};
ghost use Rattle.intent_journal.specs.Counts.{SyncsAtMost};
ghost use Rattle.plan_exec.specs.Counts.{Runs};
ghost use Rattle.plan_exec.specs.Frames.{Puts};
ghost use Rattle.plan_exec.specs.Steps.{SetWaits, IsSetDone, SetsReady, SetsDone, ToOutcomeOf};

use crate::ExecError;
use crate::entry::put_one;
use crate::syncs::sync_all;
use intent_journal::Ready;
use tree_fs::Tree;

// The sets, none of them synced.
fn put_all<T: Tree>(tree: &mut T, ready: &Ready) -> Result<(), ExecError>
    ensures stops { T.tells →
        Runs 0 (Puts ready.now (disk_of (T.story tree.old)))
        (T.story tree.old) (T.story tree.new) }
    ensures done { T.tells →
        OnOk result ((row : SetRow) → Contains ready.now.sets row →
        IsSetDone (disk_of (T.story tree.old)) (disk_of (T.story tree.new)) row) }
    ensures free { T.tells →
        OnOk result (NoneHas (set_obstacle (disk_of (T.story tree.old))) ready.now.sets) }
    ensures errors { T.tells →
        IfErr result (StopsAtFirst (set_obstacle (disk_of (T.story tree.old)))
        (IsSetDone (disk_of (T.story tree.old)) (disk_of (T.story tree.new)))
        (SetWaits (disk_of (T.story tree.old)) (disk_of (T.story tree.new)))
        ready.now.sets) }
    ensures rules { PassesRules ready.now }
    ensures cause { HasCause Failed (T.faults tree.old) (T.faults tree.new) result }
{
    let rows = ready.plan().sets.as_slice();
    let above = ready.set_parents();
    for i in 0..rows.len() {
        put_one(tree, &rows[i], &above[i])?;
    }
    Ok(())
}

/// The sets: each destination gets the file of its source, or none. Then each folder of a
/// destination is synced once. `SourceGone` and `Blocked` come exactly for the first set that
/// can't be done, and those in front of it are done then. Where the set form of the plan stands alone,
/// its folders are made and its saves done, neither comes, and every stop leads where the start
/// leads.
pub fn do_sets<T: Tree>(tree: &mut T, ready: &Ready) -> Result<(), ExecError>
    ensures stops { T.tells →
        SetsReady ready.now (disk_of (T.story tree.old)) →
        Along (Leads (ToOutcomeOf (disk_of (T.story tree.old))))
        (T.story tree.old) (T.story tree.new) }
    ensures mid { T.tells →
        (a : Disk) → Mid a ready.now (disk_of (T.story tree.old)) →
        SavesDone (disk_of (T.story tree.old)) ready.now →
        Along (Mid a ready.now) (T.story tree.old) (T.story tree.new) }
    ensures only { T.tells →
        Along (Puts ready.now (disk_of (T.story tree.old))) (T.story tree.old) (T.story tree.new) }
    ensures done { T.tells →
        OnOk result
        (SetsDone ready.now (disk_of (T.story tree.old)) (disk_of (T.story tree.new))) }
    ensures free { T.tells →
        OnOk result (NoneHas (set_obstacle (disk_of (T.story tree.old))) ready.now.sets) }
    ensures errors { T.tells →
        IfErr result (StopsAtFirst (set_obstacle (disk_of (T.story tree.old)))
        (IsSetDone (disk_of (T.story tree.old)) (disk_of (T.story tree.new)))
        (SetWaits (disk_of (T.story tree.old)) (disk_of (T.story tree.new)))
        ready.now.sets) }
    ensures never { T.tells →
        SetsReady ready.now (disk_of (T.story tree.old)) → IfErr result IsFault }
    ensures syncs { T.tells →
        (folders : List Place) → AreFolders (set_places ready.now) folders →
        SyncsAtMost (length folders) (T.story tree.old) (T.story tree.new) }
    ensures cause { HasCause Failed (T.faults tree.old) (T.faults tree.new) result }
{
    put_all(tree, ready)?;
    sync_all(tree, ready.set_folders())?;
    Ok(())
}
