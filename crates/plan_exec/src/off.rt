// The end of a plan's moves: its clears, and the folders that it takes off.
ghost use Rattle.std.specs.Prelude.{◌≡◌, ◌≢◌, ◌+◌, [], List, IfErr, OnOk, length};
ghost use Rattle.fault_count.specs.Causes.{HasCause};
ghost use Rattle.tree_fs.specs.declared.place.Place.{Place};
ghost use Rattle.tree_fs.specs.declared.tree.TreeError.TheVariants.{Failed};
ghost use Rattle.plan_exec.specs.declared.error.ExecError.TheVariants as exec_error;
ghost use Rattle.tree_fs.specs.Spot.{spot_of};
ghost use Rattle.tree_fs.specs.Story.{Along, disk_of};
ghost use Rattle.tree_fs.specs.Calls.{IsFolder};
ghost use Rattle.move_plan.specs.Rules.{PassesRules};
ghost use Rattle.desk_model.specs.Stops.{Leads};
ghost use Rattle.intent_journal.specs.Counts.{SyncsAtMost};
ghost use Rattle.intent_journal.specs.Ready.{AreFolders};
ghost use Rattle.plan_exec.specs.Causes.{IsFault, StopsAtFirst, clear_obstacle};
ghost use Rattle.plan_exec.specs.Counts.{Runs};
ghost use Rattle.plan_exec.specs.Ending.{HasForms, ManifestDone, SameControls, NoControl};
ghost use Rattle.plan_exec.specs.Steps.{IsStill, IsClearDone, ClearsReady, ClearsDone, ToOutcomeOf};
ghost use Rattle.plan_exec.specs.TakingOff.{IsEmpty, HasEntry, TakesOne, TakesOff, OffDone};
ghost use Rattle.plan_exec.specs.Middle.{IsUnset};

use crate::ExecError;
use crate::clears::unlink_clears;
use intent_journal::Ready;
use move_plan::Plan;
use tree_fs::{Kind, Place, Tree, TreeError};

// Removes an empty folder, once its entries are settled.
fn take_empty<T: Tree>(tree: &mut T, at: &Place) -> Result<(), TreeError>
    requires below_root { (spot_of at.now).names ≢ [] }
    requires folder { T.tells → IsFolder (disk_of (T.story tree.old)) (spot_of at.now) }
    requires empty { T.tells → IsEmpty (disk_of (T.story tree.old)) (spot_of at.now) }
    ensures stops { T.tells →
        Runs 1 (TakesOne (spot_of at.now) (disk_of (T.story tree.old)))
        (T.story tree.old) (T.story tree.new) }
    ensures done { T.tells → OnOk result (¬ IsFolder
        (disk_of (T.story tree.new)) (spot_of at.now)) }
    ensures cause { HasCause Failed (T.faults tree.old) (T.faults tree.new) result }
{
    tree.sync_folder(at)?;
    tree.remove_folder(at)
}

// One folder, which goes where it is there and empty.
fn take_one<T: Tree>(tree: &mut T, at: &Place) -> Result<(), TreeError>
    requires below_root { (spot_of at.now).names ≢ [] }
    ensures stops { T.tells →
        Runs 1 (TakesOne (spot_of at.now) (disk_of (T.story tree.old)))
        (T.story tree.old) (T.story tree.new) }
    ensures done { T.tells →
        OnOk result (IsFolder (disk_of (T.story tree.new)) (spot_of at.now) →
        HasEntry (disk_of (T.story tree.new)) (spot_of at.now)) }
    ensures cause { HasCause Failed (T.faults tree.old) (T.faults tree.new) result }
{
    if tree.kind(at)? != Kind::Folder {
        return Ok(());
    }
    if !tree.list(at)?.is_empty() {
        return Ok(());
    }
    take_empty(tree, at)
}

// Takes off each folder of the list that is there and empty, in the plan's order: what lies below
// another one comes first.
pub(crate) fn take_folders_off<T: Tree>(tree: &mut T, plan: &Plan) -> Result<(), TreeError>
    requires { PassesRules plan.now }
    ensures stops { T.tells →
        Runs (length plan.now.folders_off) (TakesOff plan.now.folders_off
        (disk_of (T.story tree.old))) (T.story tree.old) (T.story tree.new) }
    ensures done { T.tells → OnOk result (OffDone plan.now.folders_off
        (disk_of (T.story tree.new))) }
    ensures cause { HasCause Failed (T.faults tree.old) (T.faults tree.new) result }
{
    for at in plan.folders_off.as_slice() {
        take_one(tree, at)?;
    }
    Ok(())
}

/// The seventh step: each clear loses its file, and then each folder of a clear is synced once.
/// Then each folder to take off goes where it is there and empty, in the plan's order, synced just
/// before. `Blocked` comes exactly for the first clear that is neither file nor absent, and those
/// in front of it are done then. Where the clear form of the plan stands alone, it doesn't come,
/// and every stop leads where the start leads.
pub fn do_clears<T: Tree>(tree: &mut T, ready: &Ready) -> Result<(), ExecError>
    ensures stops { T.tells → ClearsReady ready.now (disk_of (T.story tree.old)) →
        Along (Leads (ToOutcomeOf (disk_of (T.story tree.old))))
        (T.story tree.old) (T.story tree.new) }
    ensures again { T.tells → ClearsReady ready.now (disk_of (T.story tree.old)) →
        ClearsReady ready.now (disk_of (T.story tree.new)) }
    ensures done { T.tells → OnOk result (ClearsDone ready.now (disk_of (T.story tree.new))) }
    ensures off { T.tells → OnOk result (OffDone ready.now.folders_off
        (disk_of (T.story tree.new))) }
    ensures controls { T.tells →
        SameControls NoControl (disk_of (T.story tree.old)) (disk_of (T.story tree.new)) }
    ensures manifest { T.tells → ManifestDone ready.now (disk_of (T.story tree.old)) →
        ManifestDone ready.now (disk_of (T.story tree.new)) }
    ensures errors { T.tells →
        IfErr result (StopsAtFirst (clear_obstacle (disk_of (T.story tree.old)))
        (IsClearDone (disk_of (T.story tree.new)))
        (IsStill (disk_of (T.story tree.old)) (disk_of (T.story tree.new)))
        ready.now.clears) }
    ensures never { T.tells → ClearsReady ready.now (disk_of (T.story tree.old)) →
        IfErr result IsFault }
    ensures syncs { T.tells → (folders : List Place) → AreFolders ready.now.clears folders →
        SyncsAtMost (length folders + length ready.now.folders_off)
        (T.story tree.old) (T.story tree.new) }
    ensures forms { T.tells → ClearsReady ready.now (disk_of (T.story tree.old)) →
        Along (HasForms ready.now) (T.story tree.old) (T.story tree.new) }
    ensures unset { T.tells → ClearsReady ready.now (disk_of (T.story tree.old)) →
        Along (IsUnset ready.now) (T.story tree.old) (T.story tree.new) }
    ensures cause { HasCause exec_error.Failed (T.faults tree.old) (T.faults tree.new) result }
{
    unlink_clears(tree, ready)?;
    Ok(take_folders_off(tree, ready.plan())?)
}
