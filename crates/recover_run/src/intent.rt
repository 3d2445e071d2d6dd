// An intent that was found is carried to its end.
ghost use Rattle.std.specs.Prelude.{◌≡◌, ◌≢◌, ◌+◌, ◌≤◌, List, length, IfOk, IfErr, OnOk};
ghost use Rattle.fault_count.specs.Causes.{HasCause};
ghost use Rattle.tree_fs.specs.declared.place.Place.{Place};
ghost use Rattle.tree_fs.specs.Disk.{Disk, IsValid};
ghost use Rattle.tree_fs.specs.Story.{Along, disk_of};
ghost use Rattle.move_plan.specs.Sound.{SoundPlan};
ghost use Rattle.intent_json.specs.Accepted.{IsAccepted};
ghost use Rattle.intent_json.specs.Forms.{form_of};
ghost use Rattle.intent_json.specs.declared.intent.Phase.TheVariants.{Set};
ghost use Rattle.desk_model.specs.Mid.{Mid};
ghost use Rattle.desk_model.specs.Places.{manifest_spot};
ghost use Rattle.desk_model.specs.Standing.{Invariant};
ghost use Rattle.desk_model.specs.Stops.{Leads};
ghost use Rattle.intent_journal.specs.declared.temp.Temp.TheVariants as temp;
ghost use Rattle.intent_journal.specs.Counts.{SyncsAtMost};
ghost use Rattle.intent_journal.specs.Forms.{CanChange};
ghost use Rattle.intent_journal.specs.Found.{IsThere};
ghost use Rattle.intent_journal.specs.Ready.{AreFolders, saved_places, set_places};
ghost use Rattle.intent_journal.specs.Temps.{temp_spot, IsFileOrAbsent};
ghost use Rattle.plan_exec.specs.Ending.{HasForms, IsEnd, NoTemps};
ghost use Rattle.plan_exec.specs.Middle.{MidWhileSet};
ghost use Rattle.plan_exec.specs.Steps.{ToOutcomeOf};
ghost use Rattle.recover_run.specs.declared.error.RecoverError.TheVariants.{BadIntent, Failed};
ghost use Rattle.recover_run.specs.declared.recovered.Recovered.TheVariants.{Finished};
ghost use Rattle.recover_run.specs.Causes.{IsFault};
ghost use Rattle.recover_run.specs.Recovery.{IsFormReady, IsSwept};

use crate::form::carry_out_form;
use crate::recovered::finished;
use crate::{RecoverError, Recovered};
use intent_journal::{OpenIntent, Ready, adopt_intent, leave, prepare};
use intent_json::{Intent, Phase};
use std::alloc::Global;
use tree_fs::Tree;

// What the form leaves to do, and then the counts of its plan.
fn finish_form<T: Tree>(
    guard: OpenIntent,
    phase: Phase,
    tree: &mut T,
    ready: &Ready,
) -> Result<Recovered, RecoverError>
    requires guard { guard ≡ form_of phase ready.now }
    requires start { T.tells → CanChange (disk_of (T.story tree.old)) }
    requires temp { T.tells → IsFileOrAbsent
        (disk_of (T.story tree.old)) (temp_spot temp.Manifest) }
    requires place { T.tells → IsFileOrAbsent (disk_of (T.story tree.old)) manifest_spot }
    ensures counts { IfOk result (λ told.
        told ≡ Finished (length ready.now.sets) (length ready.now.clears)) }
    ensures bad { IfErr result (λ e. e ≢ BadIntent) }
    ensures stops { T.tells → IsFormReady phase ready.now (disk_of (T.story tree.old)) →
        NoTemps (disk_of (T.story tree.old)) →
        Along (Leads (ToOutcomeOf (disk_of (T.story tree.old))))
        (T.story tree.old) (T.story tree.new) }
    ensures done { T.tells → IsFormReady phase ready.now (disk_of (T.story tree.old)) →
        NoTemps (disk_of (T.story tree.old)) →
        OnOk result (IsEnd (disk_of (T.story tree.old)) (disk_of (T.story tree.new))) }
    ensures never { T.tells → IsFormReady phase ready.now (disk_of (T.story tree.old)) →
        IfErr result IsFault }
    ensures forms { T.tells → IsFormReady phase ready.now (disk_of (T.story tree.old)) →
        NoTemps (disk_of (T.story tree.old)) →
        Along (HasForms ready.now) (T.story tree.old) (T.story tree.new) }
    ensures syncs { T.tells → (saved set cleared : List Place) →
        AreFolders (saved_places ready.now) saved →
        AreFolders (set_places ready.now) set → AreFolders ready.now.clears cleared →
        SyncsAtMost (length saved + length set + (4 +
        (length cleared + length ready.now.folders_off))) (T.story tree.old) (T.story tree.new) }
    ensures mid { T.tells → phase ≡ Set →
        IsFormReady phase ready.now (disk_of (T.story tree.old)) →
        NoTemps (disk_of (T.story tree.old)) →
        (a : Disk) → SoundPlan a ready.now → IsValid a →
        a.fresh ≤ (disk_of (T.story tree.old)).fresh →
        Mid a ready.now (disk_of (T.story tree.old)) →
        Along (MidWhileSet a ready.now) (T.story tree.old) (T.story tree.new) }
    ensures cause { HasCause Failed (T.faults tree.old) (T.faults tree.new) result }
{
    carry_out_form(guard, phase, tree, ready)?;
    Ok(finished(ready.plan()))
}

/// Carries an intent to its end that was found behind the barrier. All memory that its steps take
/// is taken before the first of them, but for the place that an error carries.
///
/// The clauses speak of a disk that stands, with nothing pending in `keep` and without temps. Every
/// stop leads where the start leads. After Ok the desk is the one that the start leads to, nothing
/// is pending, and there are neither an intent nor temps. The counts are those of the intent.
/// `BadIntent` never comes, and `SourceGone` and `Blocked` not where the disk stands. An error
/// leaves the intent for the next recovery.
pub fn resume<T: Tree>(
    alloc: Global,
    tree: &mut T,
    intent: Intent,
) -> Result<Recovered, RecoverError>
    requires accepted { IsAccepted intent }
    requires there { T.tells → IsThere intent (disk_of (T.story tree.old)) }
    requires start { T.tells → CanChange (disk_of (T.story tree.old)) }
    requires temp { T.tells → IsFileOrAbsent
        (disk_of (T.story tree.old)) (temp_spot temp.Manifest) }
    requires place { T.tells → IsFileOrAbsent (disk_of (T.story tree.old)) manifest_spot }
    ensures counts { IfOk result (λ told.
        told ≡ Finished (length intent.plan.sets) (length intent.plan.clears)) }
    ensures bad { IfErr result (λ e. e ≢ BadIntent) }
    ensures stops { T.tells → IsSwept (disk_of (T.story tree.old)) →
        Along (Leads (ToOutcomeOf (disk_of (T.story tree.old))))
        (T.story tree.old) (T.story tree.new) }
    ensures done { T.tells → IsSwept (disk_of (T.story tree.old)) →
        OnOk result (IsEnd (disk_of (T.story tree.old)) (disk_of (T.story tree.new))) }
    ensures never { T.tells → IsSwept (disk_of (T.story tree.old)) → IfErr result IsFault }
    ensures keeps { T.tells → IsSwept (disk_of (T.story tree.old)) →
        Along Invariant (T.story tree.old) (T.story tree.new) }
    ensures syncs { T.tells → (saved set cleared : List Place) →
        AreFolders (saved_places intent.plan) saved →
        AreFolders (set_places intent.plan) set → AreFolders intent.plan.clears cleared →
        SyncsAtMost
        (length saved + length set + length cleared + length intent.plan.folders_off + 5)
        (T.story tree.old) (T.story tree.new) }
    ensures mid { T.tells → IsSwept (disk_of (T.story tree.old)) → intent.phase ≡ Set →
        (a : Disk) → SoundPlan a intent.plan → IsValid a →
        a.fresh ≤ (disk_of (T.story tree.old)).fresh →
        Mid a intent.plan (disk_of (T.story tree.old)) →
        Along (MidWhileSet a intent.plan) (T.story tree.old) (T.story tree.new) }
    ensures cause { HasCause Failed (T.faults tree.old) (T.faults tree.new) result }
{
    let guard = adopt_intent(tree, &intent)?;
    let Intent { phase, plan } = intent;
    match prepare(alloc, plan, u64::MAX) {
        Ok(ready) => finish_form(guard, phase, tree, &ready),
        Err(error) => {
            leave(guard);
            Err(RecoverError::from(error))
        }
    }
}
