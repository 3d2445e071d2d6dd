// The clears of a plan.
ghost use Rattle.std.specs.Prelude.{◌≡◌, IfErr, OnOk, List, length};
ghost use Rattle.std.specs.List.{Contains};
ghost use Rattle.fault_count.specs.Causes.{HasCause};
ghost use Rattle.tree_fs.specs.declared.place.Place.{Place};
ghost use Rattle.tree_fs.specs.Story.{Along, disk_of};
ghost use Rattle.move_plan.specs.Rules.{PassesRules};
ghost use Rattle.desk_model.specs.Stops.{Leads};
ghost use Rattle.plan_exec.specs.declared.error.ExecError.TheVariants.{Failed};
ghost use Rattle.intent_journal.specs.Ready.{AreFolders};
ghost use Rattle.plan_exec.specs.Causes.{IsFault, NoneHas, StopsAtFirst, clear_obstacle};
ghost use Rattle.intent_journal.specs.Counts.{SyncsAtMost};
ghost use Rattle.plan_exec.specs.Counts.{Runs};
ghost use Rattle.plan_exec.specs.Frames.{Clears};
ghost use Rattle.plan_exec.specs.Steps.{IsStill, IsClearDone, ClearsReady, ClearsDone, ToOutcomeOf};

use crate::ExecError;
use crate::entry::take;
use crate::syncs::sync_all;
use intent_journal::Ready;
use tree_fs::Tree;

// The clears, none of them synced.
fn clear_all<T: Tree>(tree: &mut T, ready: &Ready) -> Result<(), ExecError>
    ensures stops { T.tells →
        Runs 0 (Clears ready.now (disk_of (T.story tree.old))) (T.story tree.old)
        (T.story tree.new) }
    ensures done { T.tells →
        OnOk result ((p : Place) → Contains ready.now.clears p → IsClearDone
        (disk_of (T.story tree.new)) p) }
    ensures free { T.tells →
        OnOk result (NoneHas (clear_obstacle (disk_of (T.story tree.old))) ready.now.clears) }
    ensures errors { T.tells →
        IfErr result (StopsAtFirst (clear_obstacle (disk_of (T.story tree.old)))
        (IsClearDone (disk_of (T.story tree.new)))
        (IsStill (disk_of (T.story tree.old)) (disk_of (T.story tree.new)))
        ready.now.clears) }
    ensures rules { PassesRules ready.now }
    ensures cause { HasCause Failed (T.faults tree.old) (T.faults tree.new) result }
{
    for at in ready.plan().clears.as_slice() {
        take(tree, at)?;
    }
    Ok(())
}

// The clears: each loses its file. Then each folder of a clear is synced once. `Blocked` comes
// exactly for the first clear that is neither file nor absent, and those in front of it are done
// then. Where the clear form of the plan stands alone, it doesn't come, and every stop leads
// where the start leads.
pub(crate) fn unlink_clears<T: Tree>(tree: &mut T, ready: &Ready) -> Result<(), ExecError>
    ensures stops { T.tells →
        ClearsReady ready.now (disk_of (T.story tree.old)) → Along
        (Leads (ToOutcomeOf (disk_of (T.story tree.old)))) (T.story tree.old) (T.story tree.new) }
    ensures only { T.tells →
        Along (Clears ready.now (disk_of (T.story tree.old))) (T.story tree.old)
        (T.story tree.new) }
    ensures done { T.tells → OnOk result (ClearsDone ready.now (disk_of (T.story tree.new))) }
    ensures free { T.tells →
        OnOk result (NoneHas (clear_obstacle (disk_of (T.story tree.old))) ready.now.clears) }
    ensures errors { T.tells →
        IfErr result (StopsAtFirst (clear_obstacle (disk_of (T.story tree.old)))
        (IsClearDone (disk_of (T.story tree.new)))
        (IsStill (disk_of (T.story tree.old)) (disk_of (T.story tree.new)))
        ready.now.clears) }
    ensures never { T.tells →
        ClearsReady ready.now (disk_of (T.story tree.old)) → IfErr result IsFault }
    ensures syncs { T.tells →
        (folders : List Place) → AreFolders ready.now.clears folders →
        SyncsAtMost (length folders) (T.story tree.old) (T.story tree.new) }
    ensures rules { PassesRules ready.now }
    ensures cause { HasCause Failed (T.faults tree.old) (T.faults tree.new) result }
{
    clear_all(tree, ready)?;
    sync_all(tree, ready.clear_folders())?;
    Ok(())
}
