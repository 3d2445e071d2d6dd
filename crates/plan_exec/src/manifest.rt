// The new manifest comes to its place, or the old one goes.
ghost use Rattle.std.specs.Prelude.{◌≡◌, IfErr, OnOk};
ghost use Rattle.fault_count.specs.Causes.{HasCause};
ghost use Rattle.tree_fs.specs.declared.tree.TreeError.TheVariants as tree_error;
ghost use Rattle.tree_fs.specs.declared.name.Kind.TheVariants.{Absent};
ghost use Rattle.tree_fs.specs.Disk.{none, HoldsOnly, kind_of};
ghost use Rattle.tree_fs.specs.Story.{Along, disk_of};
ghost use Rattle.tree_fs.specs.Frames.{Syncs, EntriesSettled};
ghost use Rattle.tree_fs.specs.Spot.{root_spot};
ghost use Rattle.tree_fs.specs.declared.place.Root.TheVariants.{Game, Keep};
ghost use Rattle.desk_model.specs.Places.{manifest_spot};
ghost use Rattle.desk_model.specs.Stops.{Leads};
ghost use Rattle.intent_journal.specs.declared.temp.Temp.TheVariants as temp;
ghost use Rattle.intent_journal.specs.Temps.{temp_spot, IsFileOrAbsent, Beside, IsInstalled};
ghost use Rattle.intent_journal.specs.Counts.{SyncsAtMost};
ghost use Rattle.plan_exec.specs.declared.error.ExecError.TheVariants.{Failed};
ghost use Rattle.plan_exec.specs.Causes.{IsFault};
ghost use Rattle.plan_exec.specs.Ending.{ManifestDone};
ghost use Rattle.plan_exec.specs.Steps.{ClearsReady, ToOutcomeOf};

use crate::ExecError;
use crate::entry::take;
use crate::held::give_up;
use intent_journal::{Ready, Temp, install, write_temp};
use rel_paths::Control;
use tree_fs::{Place, Root, Tree, TreeError};

// The text comes to its place by way of the temp.
fn write_manifest<T: Tree>(tree: &mut T, text: &[u8]) -> Result<(), ExecError>
    requires temp { T.tells → IsFileOrAbsent
        (disk_of (T.story tree.old)) (temp_spot temp.Manifest) }
    requires place { T.tells → IsFileOrAbsent (disk_of (T.story tree.old)) manifest_spot }
    ensures stops { T.tells →
        Along (Beside temp.Manifest (disk_of (T.story tree.old)))
        (T.story tree.old) (T.story tree.new) }
    ensures done { T.tells → OnOk result (IsInstalled temp.Manifest text.now
        (disk_of (T.story tree.new))) }
    ensures fault { IfErr result IsFault }
    ensures syncs { T.tells → SyncsAtMost 2 (T.story tree.old) (T.story tree.new) }
    ensures cause { HasCause Failed (T.faults tree.old) (T.faults tree.new) result }
{
    let temp = write_temp(tree, Temp::Manifest, text)?;
    match install(temp, tree) {
        Ok(()) => Ok(()),
        Err(held) => Err(give_up(held, tree)),
    }
}

// The entries of `game` and `keep` are settled.
fn sync_both<T: Tree>(tree: &mut T) -> Result<(), TreeError>
    ensures stops { T.tells →
        Along (Syncs (disk_of (T.story tree.old))) (T.story tree.old) (T.story tree.new) }
    ensures game { T.tells → OnOk result (EntriesSettled
        (disk_of (T.story tree.new)) (root_spot Game)) }
    ensures keep { T.tells → OnOk result (EntriesSettled
        (disk_of (T.story tree.new)) (root_spot Keep)) }
    ensures syncs { T.tells → SyncsAtMost 2 (T.story tree.old) (T.story tree.new) }
    ensures cause { HasCause tree_error.Failed (T.faults tree.old) (T.faults tree.new) result }
{
    tree.sync_folder(&Place {
        root: Root::Game,
        rel: None,
    })?;
    tree.sync_folder(&Place {
        root: Root::Keep,
        rel: None,
    })
}

// The manifest goes.
fn remove_manifest<T: Tree>(tree: &mut T) -> Result<(), ExecError>
    requires { T.tells → IsFileOrAbsent (disk_of (T.story tree.old)) manifest_spot }
    ensures stops { T.tells →
        Along (Beside temp.Manifest (disk_of (T.story tree.old)))
        (T.story tree.old) (T.story tree.new) }
    ensures done { T.tells → OnOk result (HoldsOnly
        (disk_of (T.story tree.new)) manifest_spot none) }
    ensures temp { T.tells → kind_of
        (disk_of (T.story tree.old)) (temp_spot temp.Manifest) ≡ Absent →
        OnOk result (kind_of (disk_of (T.story tree.new)) (temp_spot temp.Manifest) ≡ Absent) }
    ensures keep { T.tells → OnOk result (EntriesSettled
        (disk_of (T.story tree.new)) (root_spot Keep)) }
    ensures fault { T.tells → IfErr result IsFault }
    ensures syncs { T.tells → SyncsAtMost 2 (T.story tree.old) (T.story tree.new) }
    ensures cause { HasCause Failed (T.faults tree.old) (T.faults tree.new) result }
{
    take(tree, &Place::control(Control::Manifest))?;
    Ok(sync_both(tree)?)
}

/// The sixth step: the new manifest comes to its place by way of its temp, or the manifest is
/// unlinked where the plan has none. Then `game` and `keep` are synced. Where the clear form of the
/// plan stands alone, every stop leads where the start leads.
pub fn put_manifest<T: Tree>(tree: &mut T, ready: &Ready) -> Result<(), ExecError>
    requires temp { T.tells → IsFileOrAbsent
        (disk_of (T.story tree.old)) (temp_spot temp.Manifest) }
    requires place { T.tells → IsFileOrAbsent (disk_of (T.story tree.old)) manifest_spot }
    ensures stops { T.tells → ClearsReady ready.now (disk_of (T.story tree.old)) →
        Along (Leads (ToOutcomeOf (disk_of (T.story tree.old))))
        (T.story tree.old) (T.story tree.new) }
    ensures only { T.tells →
        Along (Beside temp.Manifest (disk_of (T.story tree.old)))
        (T.story tree.old) (T.story tree.new) }
    ensures done { T.tells → kind_of
        (disk_of (T.story tree.old)) (temp_spot temp.Manifest) ≡ Absent →
        OnOk result (ManifestDone ready.now (disk_of (T.story tree.new))) }
    ensures never { T.tells → IfErr result IsFault }
    ensures syncs { T.tells → SyncsAtMost 2 (T.story tree.old) (T.story tree.new) }
    ensures cause { HasCause Failed (T.faults tree.old) (T.faults tree.new) result }
{
    match &ready.plan().manifest {
        Some(_) => write_manifest(tree, ready.manifest_text()),
        None => remove_manifest(tree),
    }
}
