// A plan carried out from its first step to its last.
ghost use Rattle.std.specs.Prelude.{◌≡◌, ◌+◌, List, length, IfErr, IfOk, OnOk, Some, ◌≤◌};
ghost use Rattle.fault_count.specs.Causes.{HasCause};
ghost use Rattle.tree_fs.specs.declared.place.Place.{Place};
ghost use Rattle.tree_fs.specs.declared.name.Kind.TheVariants.{Absent};
ghost use Rattle.tree_fs.specs.Disk.{kind_of, Disk, IsValid};
ghost use Rattle.tree_fs.specs.Story.{Along, disk_of};
ghost use Rattle.intent_json.specs.Forms.{set_form, clear_form};
ghost use Rattle.move_plan.specs.Rules.{PassesRules};
ghost use Rattle.desk_model.specs.Places.{intent_spot, manifest_spot};
ghost use Rattle.desk_model.specs.Standing.{Invariant};
ghost use Rattle.desk_model.specs.Stops.{Leads};
ghost use Rattle.intent_journal.specs.declared.temp.Temp.TheVariants as temp;
ghost use Rattle.intent_journal.specs.Temps.{temp_spot, IsFileOrAbsent};
ghost use Rattle.intent_journal.specs.Forms.{CanChange, ToEither};
ghost use Rattle.intent_journal.specs.Counts.{SyncsAtMost};
ghost use Rattle.intent_journal.specs.Ready.{AreFolders, saved_places, set_places};
ghost use Rattle.plan_exec.specs.declared.error.ExecError.TheVariants.{Failed};
ghost use Rattle.plan_exec.specs.Causes.{IsFault};
ghost use Rattle.plan_exec.specs.Ending.{SameControls, NoControl, IsOfManifest, HasForms, NoTemps, CanEnd, CanExecute};
ghost use Rattle.plan_exec.specs.Ending.{IsEnd, Executed, IsPlanned, IsOldOr, StopsOldOrNew};
ghost use Rattle.plan_exec.specs.Steps.{SavesReady, SetsReady, SetsDone, ClearsReady, ToOutcomeOf};
ghost use Rattle.move_plan.specs.Sound.{SoundPlan};
ghost use Rattle.desk_model.specs.Mid.{Mid};
ghost use Rattle.plan_exec.specs.Middle.{IsUnset, MidWhileSet};

use crate::ExecError;
use crate::begun::save_and_set;
use crate::folders::make_folders;
use crate::held::give_up;
use crate::manifest::put_manifest;
use crate::mark::mark;
use crate::off::do_clears;
use intent_journal::{OpenIntent, Ready, begin, finish, leave};
use tree_fs::Tree;

// The second to the fourth step: the folders, the saves and the sets.
fn first_steps<T: Tree>(tree: &mut T, ready: &Ready) -> Result<(), ExecError>
    ensures stops { T.tells → SavesReady ready.now (disk_of (T.story tree.old)) →
        Along (Leads (ToOutcomeOf (disk_of (T.story tree.old))))
        (T.story tree.old) (T.story tree.new) }
    ensures ready { T.tells → SavesReady ready.now (disk_of (T.story tree.old)) →
        OnOk result (SetsReady ready.now (disk_of (T.story tree.new))) }
    ensures done { T.tells → SavesReady ready.now (disk_of (T.story tree.old)) →
        OnOk result (SetsDone ready.now (disk_of (T.story tree.new)) (disk_of (T.story tree.new))) }
    ensures controls { T.tells →
        SameControls NoControl (disk_of (T.story tree.old)) (disk_of (T.story tree.new)) }
    ensures never { T.tells → SavesReady ready.now (disk_of (T.story tree.old)) →
        IfErr result IsFault }
    ensures syncs { T.tells → (saved set : List Place) →
        AreFolders (saved_places ready.now) saved → AreFolders (set_places ready.now) set
        → SyncsAtMost (length saved + length set) (T.story tree.old) (T.story tree.new) }
    ensures forms { T.tells → SavesReady ready.now (disk_of (T.story tree.old)) →
        Along (HasForms ready.now) (T.story tree.old) (T.story tree.new) }
    ensures mid { T.tells →
        (a : Disk) → SoundPlan a ready.now → Mid a ready.now (disk_of (T.story tree.old)) →
        Along (Mid a ready.now) (T.story tree.old) (T.story tree.new) }
    ensures fresh { T.tells →
        (disk_of (T.story tree.new)).fresh ≡ (disk_of (T.story tree.old)).fresh }
    ensures rules { PassesRules ready.now }
    ensures cause { HasCause Failed (T.faults tree.old) (T.faults tree.new) result }
{
    make_folders(tree, ready)?;
    save_and_set(tree, ready)
}

// The sixth and the seventh step: the manifest, the clears and the folders to take off.
fn last_steps<T: Tree>(tree: &mut T, ready: &Ready) -> Result<(), ExecError>
    requires temp { T.tells → IsFileOrAbsent
        (disk_of (T.story tree.old)) (temp_spot temp.Manifest) }
    requires place { T.tells → IsFileOrAbsent (disk_of (T.story tree.old)) manifest_spot }
    ensures stops { T.tells → ClearsReady ready.now (disk_of (T.story tree.old)) →
        Along (Leads (ToOutcomeOf (disk_of (T.story tree.old))))
        (T.story tree.old) (T.story tree.new) }
    ensures done { T.tells → ClearsReady ready.now (disk_of (T.story tree.old)) →
        kind_of (disk_of (T.story tree.old)) (temp_spot temp.Manifest) ≡ Absent →
        OnOk result (CanEnd ready.now (disk_of (T.story tree.new))) }
    ensures controls { T.tells →
        SameControls IsOfManifest (disk_of (T.story tree.old)) (disk_of (T.story tree.new)) }
    ensures never { T.tells → ClearsReady ready.now (disk_of (T.story tree.old)) →
        IfErr result IsFault }
    ensures syncs { T.tells → (cleared : List Place) → AreFolders ready.now.clears cleared
        → SyncsAtMost (2 + (length cleared + length ready.now.folders_off))
        (T.story tree.old) (T.story tree.new) }
    ensures forms { T.tells → ClearsReady ready.now (disk_of (T.story tree.old)) →
        Along (HasForms ready.now) (T.story tree.old) (T.story tree.new) }
    ensures unset { T.tells → ClearsReady ready.now (disk_of (T.story tree.old)) →
        Along (IsUnset ready.now) (T.story tree.old) (T.story tree.new) }
    ensures cause { HasCause Failed (T.faults tree.old) (T.faults tree.new) result }
{
    put_manifest(tree, ready)?;
    do_clears(tree, ready)
}

// The eighth step: the clear form goes.
fn close<T: Tree>(intent: OpenIntent, tree: &mut T, ready: &Ready) -> Result<(), ExecError>
    requires { T.tells → IsFileOrAbsent (disk_of (T.story tree.old)) intent_spot }
    ensures stops { T.tells → CanEnd ready.now (disk_of (T.story tree.old)) →
        Along (Leads (ToOutcomeOf (disk_of (T.story tree.old))))
        (T.story tree.old) (T.story tree.new) }
    ensures done { T.tells → CanEnd ready.now (disk_of (T.story tree.old)) →
        NoTemps (disk_of (T.story tree.old)) →
        OnOk result (IsEnd (disk_of (T.story tree.old)) (disk_of (T.story tree.new))) }
    ensures never { IfErr result IsFault }
    ensures syncs { T.tells → SyncsAtMost 1 (T.story tree.old) (T.story tree.new) }
    ensures forms { T.tells → CanEnd ready.now (disk_of (T.story tree.old)) →
        Along (HasForms ready.now) (T.story tree.old) (T.story tree.new) }
    ensures unset { T.tells → CanEnd ready.now (disk_of (T.story tree.old)) →
        Along (IsUnset ready.now) (T.story tree.old) (T.story tree.new) }
    ensures cause { HasCause Failed (T.faults tree.old) (T.faults tree.new) result }
{
    match finish(intent, tree) {
        Ok(()) => Ok(()),
        Err(kept) => Err(give_up(kept, tree)),
    }
}

/// Carries out what the clear form of a plan leaves to do: the manifest, the clears and the folders
/// to take off, and the end of the intent. Each step skips what is done.
///
/// The clauses speak of a disk on which the clear form stands alone and no temp is there. Every
/// stop leads where the start leads. After Ok the desk is the one that the start leads to, with
/// nothing pending, without an intent and without temps. `Blocked` doesn't come then, and an error
/// leaves the intent to recovery.
pub fn carry_out_clear<T: Tree>(
    intent: OpenIntent,
    tree: &mut T,
    ready: &Ready,
) -> Result<(), ExecError>
    requires temp { T.tells → IsFileOrAbsent
        (disk_of (T.story tree.old)) (temp_spot temp.Manifest) }
    requires place { T.tells → IsFileOrAbsent (disk_of (T.story tree.old)) manifest_spot }
    requires intent { T.tells → IsFileOrAbsent (disk_of (T.story tree.old)) intent_spot }
    ensures stops { T.tells → ClearsReady ready.now (disk_of (T.story tree.old)) →
        NoTemps (disk_of (T.story tree.old)) →
        Along (Leads (ToOutcomeOf (disk_of (T.story tree.old))))
        (T.story tree.old) (T.story tree.new) }
    ensures done { T.tells → ClearsReady ready.now (disk_of (T.story tree.old)) →
        NoTemps (disk_of (T.story tree.old)) →
        OnOk result (IsEnd (disk_of (T.story tree.old)) (disk_of (T.story tree.new))) }
    ensures never { T.tells → ClearsReady ready.now (disk_of (T.story tree.old)) →
        IfErr result IsFault }
    ensures syncs { T.tells → (cleared : List Place) → AreFolders ready.now.clears cleared
        → SyncsAtMost (3 + (length cleared + length ready.now.folders_off))
        (T.story tree.old) (T.story tree.new) }
    ensures forms { T.tells → ClearsReady ready.now (disk_of (T.story tree.old)) →
        NoTemps (disk_of (T.story tree.old)) →
        Along (HasForms ready.now) (T.story tree.old) (T.story tree.new) }
    ensures unset { T.tells → ClearsReady ready.now (disk_of (T.story tree.old)) →
        NoTemps (disk_of (T.story tree.old)) →
        Along (IsUnset ready.now) (T.story tree.old) (T.story tree.new) }
    ensures cause { HasCause Failed (T.faults tree.old) (T.faults tree.new) result }
{
    match last_steps(tree, ready) {
        Ok(()) => close(intent, tree, ready),
        Err(error) => {
            leave(intent);
            Err(error)
        }
    }
}

// The fifth step, and those behind it.
fn mark_and_end<T: Tree>(intent: OpenIntent, tree: &mut T, ready: &Ready) -> Result<(), ExecError>
    requires guard { intent ≡ set_form ready.now }
    requires start { T.tells → CanChange (disk_of (T.story tree.old)) }
    requires temp { T.tells → IsFileOrAbsent
        (disk_of (T.story tree.old)) (temp_spot temp.Manifest) }
    requires place { T.tells → IsFileOrAbsent (disk_of (T.story tree.old)) manifest_spot }
    ensures stops { T.tells → SetsReady ready.now (disk_of (T.story tree.old)) →
        SetsDone ready.now (disk_of (T.story tree.old)) (disk_of (T.story tree.old)) →
        NoTemps (disk_of (T.story tree.old)) →
        Along (Leads (ToOutcomeOf (disk_of (T.story tree.old))))
        (T.story tree.old) (T.story tree.new) }
    ensures done { T.tells → SetsReady ready.now (disk_of (T.story tree.old)) →
        SetsDone ready.now (disk_of (T.story tree.old)) (disk_of (T.story tree.old)) →
        NoTemps (disk_of (T.story tree.old)) →
        OnOk result (IsEnd (disk_of (T.story tree.old)) (disk_of (T.story tree.new))) }
    ensures never { T.tells → SetsReady ready.now (disk_of (T.story tree.old)) →
        SetsDone ready.now (disk_of (T.story tree.old)) (disk_of (T.story tree.old)) →
        IfErr result IsFault }
    ensures syncs { T.tells → (cleared : List Place) → AreFolders ready.now.clears cleared
        → SyncsAtMost (4 + (length cleared + length ready.now.folders_off))
        (T.story tree.old) (T.story tree.new) }
    ensures forms { T.tells → SetsReady ready.now (disk_of (T.story tree.old)) →
        SetsDone ready.now (disk_of (T.story tree.old)) (disk_of (T.story tree.old)) →
        NoTemps (disk_of (T.story tree.old)) →
        Along (HasForms ready.now) (T.story tree.old) (T.story tree.new) }
    ensures mid { T.tells → PassesRules ready.now →
        SetsReady ready.now (disk_of (T.story tree.old)) →
        SetsDone ready.now (disk_of (T.story tree.old)) (disk_of (T.story tree.old)) →
        NoTemps (disk_of (T.story tree.old)) →
        (a : Disk) → IsValid a → a.fresh ≤ (disk_of (T.story tree.old)).fresh →
        Mid a ready.now (disk_of (T.story tree.old)) →
        Along (MidWhileSet a ready.now) (T.story tree.old) (T.story tree.new) }
    ensures cause { HasCause Failed (T.faults tree.old) (T.faults tree.new) result }
{
    match mark(intent, tree, ready) {
        Ok(cleared) => carry_out_clear(cleared, tree, ready),
        Err(held) => Err(give_up(held, tree)),
    }
}

/// Carries out what the set form of a plan leaves to do: the folders, saves and sets, the mark,
/// and what the clear form leaves to do. Each step skips what is done.
///
/// The clauses speak of a disk on which the set form stands alone and no temp is there. Every
/// stop leads where the start leads. After Ok the desk is the one that the start leads to, with
/// nothing pending, without an intent and without temps. `SourceGone` and `Blocked` don't come
/// then, and an error leaves the intent to recovery.
pub fn carry_out_set<T: Tree>(
    intent: OpenIntent,
    tree: &mut T,
    ready: &Ready,
) -> Result<(), ExecError>
    requires guard { intent ≡ set_form ready.now }
    requires start { T.tells → CanChange (disk_of (T.story tree.old)) }
    requires temp { T.tells → IsFileOrAbsent
        (disk_of (T.story tree.old)) (temp_spot temp.Manifest) }
    requires place { T.tells → IsFileOrAbsent (disk_of (T.story tree.old)) manifest_spot }
    ensures stops { T.tells → SavesReady ready.now (disk_of (T.story tree.old)) →
        NoTemps (disk_of (T.story tree.old)) →
        Along (Leads (ToOutcomeOf (disk_of (T.story tree.old))))
        (T.story tree.old) (T.story tree.new) }
    ensures done { T.tells → SavesReady ready.now (disk_of (T.story tree.old)) →
        NoTemps (disk_of (T.story tree.old)) →
        OnOk result (IsEnd (disk_of (T.story tree.old)) (disk_of (T.story tree.new))) }
    ensures never { T.tells → SavesReady ready.now (disk_of (T.story tree.old)) →
        IfErr result IsFault }
    ensures syncs { T.tells → (saved set cleared : List Place) →
        AreFolders (saved_places ready.now) saved →
        AreFolders (set_places ready.now) set → AreFolders ready.now.clears cleared →
        SyncsAtMost (length saved + length set + (4 +
        (length cleared + length ready.now.folders_off))) (T.story tree.old) (T.story tree.new) }
    ensures forms { T.tells → SavesReady ready.now (disk_of (T.story tree.old)) →
        NoTemps (disk_of (T.story tree.old)) →
        Along (HasForms ready.now) (T.story tree.old) (T.story tree.new) }
    ensures mid { T.tells → SavesReady ready.now (disk_of (T.story tree.old)) →
        NoTemps (disk_of (T.story tree.old)) →
        (a : Disk) → SoundPlan a ready.now → IsValid a →
        a.fresh ≤ (disk_of (T.story tree.old)).fresh →
        Mid a ready.now (disk_of (T.story tree.old)) →
        Along (MidWhileSet a ready.now) (T.story tree.old) (T.story tree.new) }
    ensures cause { HasCause Failed (T.faults tree.old) (T.faults tree.new) result }
{
    match first_steps(tree, ready) {
        Ok(()) => mark_and_end(intent, tree, ready),
        Err(error) => {
            leave(intent);
            Err(error)
        }
    }
}

/// Carries out a plan: its intent is written, its steps are done in their order, and the intent is
/// taken away. After an error the intent may stand, for recovery to end what was begun.
///
/// The clauses speak of a plan that is sound on a disk with nothing pending, without an intent and
/// without temps. After Ok the desk is the one that the plan leads to, and the disk is again such
/// a disk. Recovery of each disk that a stop leaves leads to the old desk or to that of the plan,
/// and so it does after an error. `SourceGone` and `Blocked` don't come then; `Failed` comes only
/// where the tree counted a fault. Each folder is synced at most once for the saves that lie in
/// it, once for the sets, once for the clears and once before it is taken off, and there are at
/// most five syncs more.
pub fn execute<T: Tree>(tree: &mut T, ready: &Ready) -> Result<(), ExecError>
    requires temp { T.tells → IsFileOrAbsent (disk_of (T.story tree.old)) (temp_spot temp.Intent) }
    requires intent { T.tells → IsFileOrAbsent (disk_of (T.story tree.old)) intent_spot }
    requires manifest_temp { T.tells →
        IsFileOrAbsent (disk_of (T.story tree.old)) (temp_spot temp.Manifest) }
    requires manifest { T.tells → IsFileOrAbsent (disk_of (T.story tree.old)) manifest_spot }
    ensures done { T.tells → CanExecute ready.now (disk_of (T.story tree.old)) →
        OnOk result (Executed ready.now (disk_of (T.story tree.old)) (disk_of (T.story tree.new))) }
    ensures stops { T.tells → CanExecute ready.now (disk_of (T.story tree.old)) →
        StopsOldOrNew (IsPlanned (disk_of (T.story tree.old)) ready.now)
        (T.story tree.old) (T.story tree.new) }
    ensures leaves { T.tells → CanExecute ready.now (disk_of (T.story tree.old)) →
        Leads (IsOldOr (disk_of (T.story tree.old))
        (IsPlanned (disk_of (T.story tree.old)) ready.now)) (disk_of (T.story tree.new)) }
    ensures never { T.tells → CanExecute ready.now (disk_of (T.story tree.old)) →
        IfErr result IsFault }
    ensures syncs { T.tells → (saved set cleared : List Place) →
        AreFolders (saved_places ready.now) saved →
        AreFolders (set_places ready.now) set → AreFolders ready.now.clears cleared →
        SyncsAtMost
        (length saved + length set + length cleared + length ready.now.folders_off + 5)
        (T.story tree.old) (T.story tree.new) }
    ensures keeps { T.tells → CanExecute ready.now (disk_of (T.story tree.old)) →
        Along Invariant (T.story tree.old) (T.story tree.new) }
    ensures mid { T.tells → CanExecute ready.now (disk_of (T.story tree.old)) →
        Along (MidWhileSet (disk_of (T.story tree.old)) ready.now)
        (T.story tree.old) (T.story tree.new) }
    ensures cause { HasCause Failed (T.faults tree.old) (T.faults tree.new) result }
{
    match begin(tree, ready) {
        Ok(intent) => carry_out_set(intent, tree, ready),
        Err(held) => Err(give_up(held, tree)),
    }
}
