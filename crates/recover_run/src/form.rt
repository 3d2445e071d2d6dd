// What a form of an intent leaves to do.
ghost use Rattle.std.specs.Prelude.{◌≡◌, ◌+◌, ◌≤◌, List, length, IfErr, OnOk};
ghost use Rattle.fault_count.specs.Causes.{HasCause};
ghost use Rattle.tree_fs.specs.declared.place.Place.{Place};
ghost use Rattle.tree_fs.specs.Disk.{Disk, IsValid};
ghost use Rattle.tree_fs.specs.Story.{Along, disk_of};
ghost use Rattle.move_plan.specs.Sound.{SoundPlan};
ghost use Rattle.intent_json.specs.Forms.{form_of};
ghost use Rattle.intent_json.specs.declared.intent.Phase.TheVariants.{Set};
ghost use Rattle.desk_model.specs.Mid.{Mid};
ghost use Rattle.desk_model.specs.Places.{manifest_spot};
ghost use Rattle.desk_model.specs.Stops.{Leads};
ghost use Rattle.intent_journal.specs.declared.temp.Temp.TheVariants as temp;
ghost use Rattle.intent_journal.specs.Counts.{SyncsAtMost};
ghost use Rattle.intent_journal.specs.Forms.{CanChange};
ghost use Rattle.intent_journal.specs.Ready.{AreFolders, saved_places, set_places};
ghost use Rattle.intent_journal.specs.Temps.{temp_spot, IsFileOrAbsent};
ghost use Rattle.plan_exec.specs.declared.error.ExecError.TheVariants.{Failed};
ghost use Rattle.plan_exec.specs.Causes.{IsFault};
ghost use Rattle.plan_exec.specs.Ending.{HasForms, IsEnd, NoTemps};
ghost use Rattle.plan_exec.specs.Middle.{MidWhileSet};
ghost use Rattle.plan_exec.specs.Steps.{ToOutcomeOf};
ghost use Rattle.recover_run.specs.Recovery.{IsFormReady};

use intent_journal::{OpenIntent, Ready};
use intent_json::Phase;
use plan_exec::{ExecError, carry_out_clear, carry_out_set};
use tree_fs::Tree;

// The second step and those behind it for a set form, the sixth and those behind it for a clear
// form.
pub(crate) fn carry_out_form<T: Tree>(
    guard: OpenIntent,
    phase: Phase,
    tree: &mut T,
    ready: &Ready,
) -> Result<(), ExecError>
    requires guard { guard ≡ form_of phase ready.now }
    requires start { T.tells → CanChange (disk_of (T.story tree.old)) }
    requires temp { T.tells → IsFileOrAbsent
        (disk_of (T.story tree.old)) (temp_spot temp.Manifest) }
    requires place { T.tells → IsFileOrAbsent (disk_of (T.story tree.old)) manifest_spot }
    ensures stops { T.tells → IsFormReady phase ready.now (disk_of (T.story tree.old)) →
        NoTemps (disk_of (T.story tree.old)) →
        Along (Leads (ToOutcomeOf (disk_of (T.story tree.old))))
        (T.story tree.old) (T.story tree.new) }
    ensures done { T.tells → IsFormReady phase ready.now (disk_of (T.story tree.old)) →
        NoTemps (disk_of (T.story tree.old)) →
        OnOk result (IsEnd (disk_of (T.story tree.old)) (disk_of (T.story tree.new))) }
    ensures never { T.tells → IsFormReady phase ready.now (disk_of (T.story tree.old)) →
        IfErr result IsFault }
    ensures forms { T.tells → IsFormReady phase ready.now (disk_of (T.story tree.old)) →
        NoTemps (disk_of (T.story tree.old)) →
        Along (HasForms ready.now) (T.story tree.old) (T.story tree.new) }
    ensures syncs { T.tells → (saved set cleared : List Place) →
        AreFolders (saved_places ready.now) saved →
        AreFolders (set_places ready.now) set → AreFolders ready.now.clears cleared →
        SyncsAtMost (length saved + length set + (4 +
        (length cleared + length ready.now.folders_off))) (T.story tree.old) (T.story tree.new) }
    ensures mid { T.tells → phase ≡ Set →
        IsFormReady phase ready.now (disk_of (T.story tree.old)) →
        NoTemps (disk_of (T.story tree.old)) →
        (a : Disk) → SoundPlan a ready.now → IsValid a →
        a.fresh ≤ (disk_of (T.story tree.old)).fresh →
        Mid a ready.now (disk_of (T.story tree.old)) →
        Along (MidWhileSet a ready.now) (T.story tree.old) (T.story tree.new) }
    ensures cause { HasCause Failed (T.faults tree.old) (T.faults tree.new) result }
{
    match phase {
        Phase::Set => carry_out_set(guard, tree, ready),
        Phase::Clear => carry_out_clear(guard, tree, ready),
    }
}
