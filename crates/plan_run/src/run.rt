// A plan carried out.
ghost use Rattle.std.specs.Prelude.{◌≡◌, ◌⊎◌, ◌+◌, ◌*◌, List, length, IfErr, IfOk, OnOk, IsOk, option_map};
ghost use Rattle.fault_count.specs.Causes.{HasCause};
ghost use Rattle.rel_paths.specs.declared.control.Control.{Control};
ghost use Rattle.tree_fs.specs.declared.place.Place.{Place};
ghost use Rattle.tree_fs.specs.Texts.{control_spot};
ghost use Rattle.tree_fs.specs.Story.{Along, disk_of};
ghost use Rattle.move_plan.specs.Idle.{IsIdle};
ghost use Rattle.desk_model.specs.History.{KeepsPlain};
ghost use Rattle.desk_model.specs.Stops.{Leads};
ghost use Rattle.intent_journal.specs.Counts.{SyncsAtMost};
ghost use Rattle.intent_journal.specs.Temps.{IsFileOrAbsent};
ghost use Rattle.plan_exec.specs.Ending.{Executed, IsPlanned, IsOldOr, StopsOldOrNew};
ghost use Rattle.plan_exec.specs.Middle.{MidWhileSet};
ghost use Rattle.plan_run.specs.Concerned.{AreConcerned};
ghost use Rattle.plan_run.specs.declared.error.RunError.TheVariants.{Failed};
ghost use Rattle.plan_run.specs.Runs.{CanRun, Fits, IsReadyFault, IsRunError, IsUnbegun, CanCome};

use crate::RunError;
use intent_journal::{Ready, prepare};
use manifest_json::Manifest;
use move_plan::{Plan, check_plan, is_idle};
use plan_exec::execute;
use std::alloc::Global;
use tree_fs::Tree;

// All that the steps of a plan need.
fn ready_for(alloc: Global, plan: Plan, most: u64) -> Result<Ready, RunError>
    ensures same { IfOk result (λ ready. ready ≡ plan) }
    ensures fits { OnOk result (Fits plan most) }
    ensures err { IfErr result (IsReadyFault plan most) }
{
    check_plan(&plan)?;
    Ok(prepare(alloc, plan, most)?)
}

/// Carries out a plan that leads on from a disk, over the manifest that is there; `there` is that
/// manifest, or none where no file is at its place. An idle plan is left alone. The text of the
/// plan's intent and two bytes more may be at most `most` bytes.
///
/// The clauses speak of a plan that is sound on a disk that stands with nothing pending, without an
/// intent and without temps. After Ok the desk is the one that the plan leads to, and the disk is
/// again such a disk. Recovery of each disk that a stop leaves leads to the old desk or to that of
/// the plan, and so it does after an error; the game folder without mods stays all along. `TooLong`
/// comes before the first step, and so does `Unsound`, which never comes of a sound plan;
/// `SourceGone` and `Blocked` don't come either. A folder in which something changes is synced at
/// most four times, and there are at most five syncs more.
pub fn carry_out<T: Tree>(
    alloc: Global,
    tree: &mut T,
    plan: Plan,
    there: Option<&Manifest>,
    most: u64,
) -> Result<(), RunError>
    requires { T.tells → (which : Control) →
        IsFileOrAbsent (disk_of (T.story tree.old)) (control_spot which) }
    ensures done { T.tells →
        CanRun plan (option_map (λ m. m.now) there.entry) (disk_of (T.story tree.old)) →
        OnOk result (Executed plan (disk_of (T.story tree.old)) (disk_of (T.story tree.new))) }
    ensures stops { T.tells →
        CanRun plan (option_map (λ m. m.now) there.entry) (disk_of (T.story tree.old)) →
        StopsOldOrNew (IsPlanned (disk_of (T.story tree.old)) plan)
        (T.story tree.old) (T.story tree.new) }
    ensures leaves { T.tells →
        CanRun plan (option_map (λ m. m.now) there.entry) (disk_of (T.story tree.old)) →
        Leads (IsOldOr (disk_of (T.story tree.old)) (IsPlanned (disk_of (T.story tree.old)) plan))
        (disk_of (T.story tree.new)) }
    ensures keeps { T.tells →
        CanRun plan (option_map (λ m. m.now) there.entry) (disk_of (T.story tree.old)) →
        Along (KeepsPlain (disk_of (T.story tree.old))) (T.story tree.old) (T.story tree.new) }
    ensures mid { T.tells →
        CanRun plan (option_map (λ m. m.now) there.entry) (disk_of (T.story tree.old)) →
        Along (MidWhileSet (disk_of (T.story tree.old)) plan)
        (T.story tree.old) (T.story tree.new) }
    ensures never { T.tells →
        CanRun plan (option_map (λ m. m.now) there.entry) (disk_of (T.story tree.old)) →
        IfErr result CanCome }
    ensures fits { OnOk result
        (IsIdle plan (option_map (λ m. m.now) there.entry) ⊎ Fits plan most) }
    ensures err { IfErr result
        (IsRunError plan (option_map (λ m. m.now) there.entry) most) }
    ensures unbegun { T.tells →
        IfErr result (λ e. IsUnbegun e → T.story tree.new ≡ T.story tree.old) }
    ensures idle { T.tells → IsIdle plan (option_map (λ m. m.now) there.entry) →
        T.story tree.new ≡ T.story tree.old }
    ensures syncs { T.tells → (folders : List Place) → AreConcerned plan folders →
        SyncsAtMost (4 * length folders + 5) (T.story tree.old) (T.story tree.new) }
    ensures cause { HasCause Failed (T.faults tree.old) (T.faults tree.new) result }
{
    if is_idle(&plan, there) {
        return Ok(());
    }
    let ready = ready_for(alloc, plan, most)?;
    execute(tree, &ready)?;
    Ok(())
}
