// A plan that a command carries out.
ghost use Rattle.std.specs.Prelude.{◌≡◌, ◌⊎◌, IfErr, OnOk};
ghost use Rattle.fault_count.specs.Causes.{HasCause};
ghost use Rattle.rel_paths.specs.declared.control.Control.{Control};
ghost use Rattle.tree_fs.specs.Texts.{control_spot};
ghost use Rattle.tree_fs.specs.Story.{disk_of};
ghost use Rattle.move_plan.specs.Idle.{IsIdle};
ghost use Rattle.intent_journal.specs.Temps.{IsFileOrAbsent};
ghost use Rattle.plan_exec.specs.Ending.{Executed};
ghost use Rattle.plan_run.specs.Runs.{CanRun, Fits};
ghost use Rattle.deploy_engine.specs.Running.{run_stop, Runs, RunStops};

use answer_lines::{PlanRefusal, RecoveryRefusal, Refusal};
use command_steps::{Limits, Stop};
use manifest_json::Manifest;
use move_plan::Plan;
use plan_run::{RunError, carry_out};
use std::alloc::Global;
use tree_fs::Tree;

fn stop_of(error: RunError) -> Stop
    ensures { result ≡ run_stop error }
{
    match error {
        RunError::TooLong(length) => {
            Stop::Refused(Refusal::Plan(PlanRefusal::PlanTooLong(length)))
        }
        // A plan that was made of a told disk is sound.
        RunError::Unsound(_) => Stop::Memory,
        RunError::SourceGone(place) => {
            Stop::Refused(Refusal::Recovery(RecoveryRefusal::SourceGone(place)))
        }
        RunError::Blocked(place) => Stop::Refused(Refusal::Plan(PlanRefusal::Blocked(place))),
        RunError::Failed => Stop::TreeFault,
        RunError::Memory => Stop::Memory,
    }
}

/// Carries out a plan over the manifest that is there, or none where no file is at its place. The
/// text of the plan's intent may have `limits.text` bytes, two less.
pub(crate) fn run_plan<T: Tree>(
    alloc: Global,
    tree: &mut T,
    plan: Plan,
    there: &Option<Manifest>,
    limits: &Limits,
) -> Result<(), Stop>
    requires { T.tells → (which : Control) →
        IsFileOrAbsent (disk_of (T.story tree.old)) (control_spot which) }
    ensures done { T.tells → CanRun plan there.now (disk_of (T.story tree.old)) →
        OnOk result (Executed plan (disk_of (T.story tree.old)) (disk_of (T.story tree.new))) }
    ensures fits { OnOk result (IsIdle plan there.now ⊎ Fits plan limits.now.text) }
    ensures runs { T.tells → Runs plan there.now (T.story tree.old) (T.story tree.new) }
    ensures stopped { T.tells → IfErr result
        (RunStops plan there.now limits.now.text (T.story tree.old) (T.story tree.new)) }
    ensures cause { HasCause Stop.TreeFault (T.faults tree.old) (T.faults tree.new) result }
{
    match carry_out(alloc, tree, plan, there.as_ref(), limits.text) {
        Ok(()) => Ok(()),
        Err(error) => Err(stop_of(error)),
    }
}
