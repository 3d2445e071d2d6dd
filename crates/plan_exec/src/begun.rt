// The saves and sets of a plan whose set form stands.
ghost use Rattle.std.specs.Prelude.{◌≡◌, ◌+◌, IfErr, OnOk, List, length};
ghost use Rattle.fault_count.specs.Causes.{HasCause};
ghost use Rattle.tree_fs.specs.declared.place.Place.{Place};
ghost use Rattle.tree_fs.specs.Disk.{Disk};
ghost use Rattle.tree_fs.specs.Story.{Along, disk_of};
ghost use Rattle.move_plan.specs.Sound.{SoundPlan};
ghost use Rattle.desk_model.specs.Mid.{Mid};
ghost use Rattle.desk_model.specs.Stops.{Leads};
ghost use Rattle.intent_journal.specs.Ready.{AreFolders, saved_places, set_places};
ghost use Rattle.plan_exec.specs.declared.error.ExecError.TheVariants.{Failed};
ghost use Rattle.plan_exec.specs.Causes.{IsFault};
ghost use Rattle.intent_journal.specs.Counts.{SyncsAtMost};
ghost use Rattle.plan_exec.specs.Frames.{Moves};
ghost use Rattle.plan_exec.specs.Steps.{FoldersMade, SavesReady, SetsReady, SetsDone, ToOutcomeOf};

use crate::ExecError;
use crate::saves::do_saves;
use crate::sets::do_sets;
use intent_journal::Ready;
use tree_fs::Tree;

// The saves, and then the sets. At Ok the mark may be made.
pub(crate) fn save_and_set<T: Tree>(tree: &mut T, ready: &Ready) -> Result<(), ExecError>
    ensures stops { T.tells →
        SavesReady ready.now (disk_of (T.story tree.old)) →
        FoldersMade ready.now (disk_of (T.story tree.old)) → Along
        (Leads (ToOutcomeOf (disk_of (T.story tree.old)))) (T.story tree.old) (T.story tree.new) }
    ensures mid { T.tells →
        (a : Disk) → SoundPlan a ready.now → Mid a ready.now (disk_of (T.story tree.old)) →
        Along (Mid a ready.now) (T.story tree.old) (T.story tree.new) }
    ensures only { T.tells →
        Along (Moves ready.now (disk_of (T.story tree.old)))
        (T.story tree.old) (T.story tree.new) }
    ensures ready { T.tells →
        SavesReady ready.now (disk_of (T.story tree.old)) →
        FoldersMade ready.now (disk_of (T.story tree.old)) →
        OnOk result (SetsReady ready.now (disk_of (T.story tree.new))) }
    ensures done { T.tells →
        SavesReady ready.now (disk_of (T.story tree.old)) →
        FoldersMade ready.now (disk_of (T.story tree.old)) → OnOk result
        (SetsDone ready.now (disk_of (T.story tree.new)) (disk_of (T.story tree.new))) }
    ensures never { T.tells →
        SavesReady ready.now (disk_of (T.story tree.old)) →
        FoldersMade ready.now (disk_of (T.story tree.old)) → IfErr result IsFault }
    ensures syncs { T.tells →
        (saved set : List Place) → AreFolders (saved_places ready.now) saved →
        AreFolders (set_places ready.now) set →
        SyncsAtMost (length saved + length set) (T.story tree.old) (T.story tree.new) }
    ensures cause { HasCause Failed (T.faults tree.old) (T.faults tree.new) result }
{
    do_saves(tree, ready)?;
    do_sets(tree, ready)?;
    Ok(())
}
