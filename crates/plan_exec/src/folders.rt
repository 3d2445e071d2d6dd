// The folders that a plan makes.
ghost use Rattle.std.specs.Prelude.{◌≡◌, OnOk, IfErr};
ghost use Rattle.fault_count.specs.Causes.{HasCause};
ghost use Rattle.tree_fs.specs.Spot.{Spot, spot_of, parent};
ghost use Rattle.move_plan.specs.Places.{Has};
ghost use Rattle.move_plan.specs.Rules.{PassesRules};
ghost use Rattle.plan_exec.specs.Ending.{SameControls, NoControl};
ghost use Rattle.desk_model.specs.Stops.{Leads};
ghost use Rattle.tree_fs.specs.Disk.{kind_of};
ghost use Rattle.tree_fs.specs.Story.{Along, disk_of};
ghost use Rattle.tree_fs.specs.Calls.{IsFolder};
ghost use Rattle.tree_fs.specs.declared.name.Kind.TheVariants.{Absent};
ghost use Rattle.plan_exec.specs.declared.error.ExecError.TheVariants.{Failed};
ghost use Rattle.plan_exec.specs.Causes.{IsFault, Tells, parent_by};
ghost use Rattle.plan_exec.specs.Counts.{Runs};
ghost use Rattle.intent_journal.specs.Counts.{SyncsAtMost};
ghost use Rattle.intent_journal.specs.Ready.{AreParents};
ghost use Rattle.plan_exec.specs.Making.{Makes, folder_obstacle, CantMakeOne};
ghost use Rattle.plan_exec.specs.Steps.{SavesReady, ToOutcomeOf};

use crate::ExecError;
use crate::entry::expect_folder;
use intent_journal::Ready;
use tree_fs::{Kind, Place, Tree};

// Makes a folder where nothing is.
fn make_absent<T: Tree>(tree: &mut T, at: &Place, above: &Place) -> Result<(), ExecError>
    requires above { spot_of above.now ≡ parent (spot_of at.now) }
    requires absent { T.tells → kind_of (disk_of (T.story tree.old)) (spot_of at.now) ≡ Absent }
    ensures stops { T.tells →
        Runs 0 (Makes (λ x. x ≡ spot_of at.now) (disk_of (T.story tree.old)))
        (T.story tree.old) (T.story tree.new) }
    ensures done { T.tells →
        OnOk result (IsFolder (disk_of (T.story tree.new)) (spot_of at.now)) }
    ensures told { T.tells →
        IfErr result (Tells (parent_by (kind_of
        (disk_of (T.story tree.old)) (parent (spot_of at.now))) (parent (spot_of at.now)))) }
    ensures cause { HasCause Failed (T.faults tree.old) (T.faults tree.new) result }
{
    expect_folder(tree, above)?;
    Ok(tree.make_folder(at)?)
}

// One folder. One that is there stays as it is.
pub(crate) fn make_one<T: Tree>(tree: &mut T, at: &Place, above: &Place) -> Result<(), ExecError>
    requires above { spot_of above.now ≡ parent (spot_of at.now) }
    ensures stops { T.tells →
        Runs 0 (Makes (λ x. x ≡ spot_of at.now) (disk_of (T.story tree.old)))
        (T.story tree.old) (T.story tree.new) }
    ensures done { T.tells →
        OnOk result (IsFolder (disk_of (T.story tree.new)) (spot_of at.now)) }
    ensures told { T.tells →
        IfErr result (Tells (folder_obstacle (disk_of (T.story tree.old)) (spot_of at.now))) }
    ensures cause { HasCause Failed (T.faults tree.old) (T.faults tree.new) result }
{
    match tree.kind(at)? {
        Kind::Folder => Ok(()),
        Kind::Absent => make_absent(tree, at, above),
        _ => Err(ExecError::Blocked(at.copy()?)),
    }
}

// The folders, each made where it isn't there.
fn make_all<T: Tree>(tree: &mut T, folders: &[Place], above: &[Place]) -> Result<(), ExecError>
    requires { AreParents folders.now above.now }
    ensures stops { T.tells →
        Runs 0 (Makes (Has folders.now) (disk_of (T.story tree.old)))
        (T.story tree.old) (T.story tree.new) }
    ensures done { T.tells →
        OnOk result ((x : Spot) → Has folders.now x → IsFolder (disk_of (T.story tree.new)) x) }
    ensures err { T.tells → IfErr result (CantMakeOne folders.now (disk_of (T.story tree.old))) }
    ensures cause { HasCause Failed (T.faults tree.old) (T.faults tree.new) result }
{
    for i in 0..folders.len() {
        make_one(tree, &folders[i], &above[i])?;
    }
    Ok(())
}

/// The second step: each folder to make is made where it isn't there, in the plan's order. Every
/// stop leads where the start leads.
///
/// `Blocked` comes at the first folder whose place is a file or odd, with that place, or whose
/// parent is no folder, with the parent.
pub fn make_folders<T: Tree>(tree: &mut T, ready: &Ready) -> Result<(), ExecError>
    ensures stops { T.tells → SavesReady ready.now (disk_of (T.story tree.old)) →
        Along (Leads (ToOutcomeOf (disk_of (T.story tree.old))))
        (T.story tree.old) (T.story tree.new) }
    ensures only { T.tells →
        Along (Makes (Has ready.now.folders) (disk_of (T.story tree.old)))
        (T.story tree.old) (T.story tree.new) }
    ensures done { T.tells →
        OnOk result ((x : Spot) → Has ready.now.folders x →
        IsFolder (disk_of (T.story tree.new)) x) }
    ensures again { T.tells → SavesReady ready.now (disk_of (T.story tree.old)) →
        SavesReady ready.now (disk_of (T.story tree.new)) }
    ensures blocked { T.tells →
        IfErr result (CantMakeOne ready.now.folders (disk_of (T.story tree.old))) }
    ensures never { T.tells → SavesReady ready.now (disk_of (T.story tree.old)) →
        IfErr result IsFault }
    ensures controls { T.tells →
        SameControls NoControl (disk_of (T.story tree.old)) (disk_of (T.story tree.new)) }
    ensures rules { PassesRules ready.now }
    ensures syncs { T.tells → SyncsAtMost 0 (T.story tree.old) (T.story tree.new) }
    ensures cause { HasCause Failed (T.faults tree.old) (T.faults tree.new) result }
{
    let plan = ready.plan();
    make_all(tree, plan.folders.as_slice(), ready.folder_parents())
}
