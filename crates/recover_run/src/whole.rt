// Recovery from its barrier to its end.
ghost use Rattle.std.specs.Prelude.{◌≡◌, ◌⊎◌, ◌+◌, ◌≤◌, List, length, IfOk, IfErr, OnOk};
ghost use Rattle.fault_count.specs.Causes.{HasCause};
ghost use Rattle.fault_count.specs.Rose.{Rose};
ghost use Rattle.tree_fs.specs.declared.name.Kind.TheVariants.{Absent};
ghost use Rattle.tree_fs.specs.declared.place.Place.{Place};
ghost use Rattle.tree_fs.specs.Disk.{Disk, IsValid, kind_of};
ghost use Rattle.tree_fs.specs.Story.{Along, disk_of, with_ops};
ghost use Rattle.move_plan.specs.declared.plan.Plan.{Plan};
ghost use Rattle.move_plan.specs.Sound.{SoundPlan};
ghost use Rattle.intent_json.specs.declared.intent.Intent.{Intent};
ghost use Rattle.intent_json.specs.Forms.{set_form};
ghost use Rattle.desk_model.specs.Mid.{Mid};
ghost use Rattle.desk_model.specs.Places.{intent_spot, manifest_spot};
ghost use Rattle.desk_model.specs.Standing.{Invariant, Standing};
ghost use Rattle.desk_model.specs.Stops.{Leads};
ghost use Rattle.intent_journal.specs.declared.temp.Temp.{Temp};
ghost use Rattle.intent_journal.specs.declared.temp.Temp.TheVariants as temp;
ghost use Rattle.intent_journal.specs.Counts.{SyncsAtMost};
ghost use Rattle.intent_journal.specs.Forms.{CanChange};
ghost use Rattle.intent_journal.specs.Found.{IsThere};
ghost use Rattle.intent_journal.specs.Ready.{AreFolders, saved_places, set_places};
ghost use Rattle.intent_journal.specs.Sweeps.{sweep_ops, LeadsLikeAStop};
ghost use Rattle.intent_journal.specs.Temps.{temp_spot, IsFileOrAbsent};
ghost use Rattle.plan_exec.specs.Ending.{IsEnd};
ghost use Rattle.plan_exec.specs.Middle.{MidWhileSet};
ghost use Rattle.plan_exec.specs.Steps.{ToOutcomeOf};
ghost use Rattle.recover_run.specs.declared.error.RecoverError.TheVariants.{BadIntent, Failed, Memory};
ghost use Rattle.recover_run.specs.declared.recovered.Recovered.TheVariants.{Nothing};
ghost use Rattle.recover_run.specs.Causes.{IsFault};
ghost use Rattle.recover_run.specs.Recovery.{InBarrier, IsReason, IsSwept, Recovers, Tells};

use crate::{RecoverError, Recovered, resume};
use intent_journal::{find_intent, sweep_temps};
use std::alloc::Global;
use tree_fs::Tree;

// What is behind the barrier.
fn go_on<T: Tree>(alloc: Global, tree: &mut T) -> Result<Recovered, RecoverError>
    requires start { T.tells → CanChange (disk_of (T.story tree.old)) }
    requires temp { T.tells → IsFileOrAbsent
        (disk_of (T.story tree.old)) (temp_spot temp.Manifest) }
    requires place { T.tells → IsFileOrAbsent (disk_of (T.story tree.old)) manifest_spot }
    ensures stops { T.tells → IsSwept (disk_of (T.story tree.old)) →
        Along (Leads (ToOutcomeOf (disk_of (T.story tree.old))))
        (T.story tree.old) (T.story tree.new) }
    ensures done { T.tells → IsSwept (disk_of (T.story tree.old)) →
        OnOk result (IsEnd (disk_of (T.story tree.old)) (disk_of (T.story tree.new))) }
    ensures keeps { T.tells → IsSwept (disk_of (T.story tree.old)) →
        Invariant (disk_of (T.story tree.old)) →
        Along Invariant (T.story tree.old) (T.story tree.new) }
    ensures never { T.tells → IsSwept (disk_of (T.story tree.old)) → IfErr result IsFault }
    ensures tells { T.tells → IfOk result (Tells (disk_of (T.story tree.old))) }
    ensures errors { T.tells → IfErr result (IsReason (disk_of (T.story tree.old))) }
    ensures idle { T.tells → IfOk result (λ told. told ≡ Nothing →
        T.story tree.new ≡ T.story tree.old) }
    ensures still { T.tells → IfErr result (λ e. e ≡ BadIntent →
        T.story tree.new ≡ T.story tree.old) }
    ensures none { T.tells → kind_of (disk_of (T.story tree.old)) intent_spot ≡ Absent →
        T.story tree.new ≡ T.story tree.old }
    ensures syncs { T.tells → (intent : Intent) → IsThere intent (disk_of (T.story tree.old)) →
        (saved set cleared : List Place) → AreFolders (saved_places intent.plan) saved →
        AreFolders (set_places intent.plan) set → AreFolders intent.plan.clears cleared →
        SyncsAtMost
        (length saved + length set + length cleared + length intent.plan.folders_off + 5)
        (T.story tree.old) (T.story tree.new) }
    ensures mid { T.tells → IsSwept (disk_of (T.story tree.old)) → (a : Disk) (plan : Plan) →
        SoundPlan a plan → IsValid a → a.fresh ≤ (disk_of (T.story tree.old)).fresh →
        IsThere (set_form plan) (disk_of (T.story tree.old)) →
        Mid a plan (disk_of (T.story tree.old)) →
        Along (MidWhileSet a plan) (T.story tree.old) (T.story tree.new) }
    ensures cause { HasCause Failed (T.faults tree.old) (T.faults tree.new) result }
{
    let found = find_intent(alloc, tree)?;
    match found {
        None => Ok(Recovered::Nothing),
        Some(intent) => resume(alloc, tree, intent),
    }
}

/// Carries what a stopped command has begun to its end, or does nothing where no command was
/// stopped. It opens with the barrier: old temps are taken away, and `keep` is settled. Then it
/// does what the intent that stands leaves to do, and each step skips what is done.
///
/// The clauses speak of a disk that stands, as every command and every stop leaves it. A stop
/// within the barrier leads where some stop of the start leads, and each later one where the start
/// leads, so recovery may be stopped and run again any number of times. After Ok the desk is the
/// one that the start leads to, nothing is pending, and there are neither an intent nor temps.
///
/// `BadIntent` comes where the file's bytes are the text of no intent whose plan passes the rules,
/// and `SourceGone` and `Blocked` where a step can't be done. None of them comes where the disk
/// stands. `Failed` comes only where the tree counted a fault.
pub fn recover<T: Tree>(alloc: Global, tree: &mut T) -> Result<Recovered, RecoverError>
    requires temps { T.tells → (which : Temp) →
        IsFileOrAbsent (disk_of (T.story tree.old)) (temp_spot which) }
    requires intent { T.tells → IsFileOrAbsent (disk_of (T.story tree.old)) intent_spot }
    requires manifest { T.tells → IsFileOrAbsent (disk_of (T.story tree.old)) manifest_spot }
    ensures done { T.tells → Standing (disk_of (T.story tree.old)) →
        OnOk result (IsEnd (disk_of (T.story tree.old)) (disk_of (T.story tree.new))) }
    ensures stops { T.tells → Standing (disk_of (T.story tree.old)) →
        InBarrier (T.story tree.old) (T.story tree.new)
        ⊎ Recovers (T.story tree.old) (T.story tree.new) }
    ensures leaves { T.tells → Standing (disk_of (T.story tree.old)) →
        LeadsLikeAStop (disk_of (T.story tree.old)) (disk_of (T.story tree.new)) }
    ensures stands { T.tells → Standing (disk_of (T.story tree.old)) →
        Along Standing (T.story tree.old) (T.story tree.new) }
    ensures keeps { T.tells → Invariant (disk_of (T.story tree.old)) →
        Along Invariant (T.story tree.old) (T.story tree.new) }
    ensures never { T.tells → Standing (disk_of (T.story tree.old)) → IfErr result IsFault }
    ensures complete { T.tells → Standing (disk_of (T.story tree.old)) →
        ¬ Rose (T.faults tree.old) (T.faults tree.new) → IfErr result (λ e. e ≡ Memory) }
    ensures tells { T.tells → IfOk result (Tells (disk_of (T.story tree.old))) }
    ensures errors { T.tells → IfErr result (IsReason (disk_of (T.story tree.old))) }
    ensures idle { T.tells → IfOk result (λ told. told ≡ Nothing → T.story tree.new
        ≡ with_ops (T.story tree.old) (sweep_ops (disk_of (T.story tree.old)))) }
    ensures still { T.tells → IfErr result (λ e. e ≡ BadIntent → T.story tree.new
        ≡ with_ops (T.story tree.old) (sweep_ops (disk_of (T.story tree.old)))) }
    ensures none { T.tells → kind_of (disk_of (T.story tree.old)) intent_spot ≡ Absent →
        SyncsAtMost 1 (T.story tree.old) (T.story tree.new) }
    ensures syncs { T.tells → (intent : Intent) → IsThere intent (disk_of (T.story tree.old)) →
        (saved set cleared : List Place) → AreFolders (saved_places intent.plan) saved →
        AreFolders (set_places intent.plan) set → AreFolders intent.plan.clears cleared →
        SyncsAtMost
        (length saved + length set + length cleared + length intent.plan.folders_off + 6)
        (T.story tree.old) (T.story tree.new) }
    ensures mid { T.tells → Standing (disk_of (T.story tree.old)) → (a : Disk) (plan : Plan) →
        SoundPlan a plan → IsValid a → a.fresh ≤ (disk_of (T.story tree.old)).fresh →
        IsThere (set_form plan) (disk_of (T.story tree.old)) →
        Mid a plan (disk_of (T.story tree.old)) →
        Along (MidWhileSet a plan) (T.story tree.old) (T.story tree.new) }
    ensures cause { HasCause Failed (T.faults tree.old) (T.faults tree.new) result }
{
    sweep_temps(tree)?;
    go_on(alloc, tree)
}
