// `settle`: settles what others changed.
ghost use Rattle.std.specs.Prelude.{◌≡◌, ℕ, List, [], length, IfOk, OnOk};
ghost use Rattle.std.specs.List.{AllByRecursion};
ghost use Rattle.fault_count.specs.Causes.{HasCause};
ghost use Rattle.rel_paths.specs.declared.control.Control.{Control};
ghost use Rattle.tree_fs.specs.Texts.{control_spot};
ghost use Rattle.tree_fs.specs.Story.{Story, Along, disk_of};
ghost use Rattle.manifest_json.specs.Paths.{AreRising};
ghost use Rattle.change_detect.specs.Changes.{change_paths};
ghost use Rattle.choice_lines.specs.Answers.{Fits};
ghost use Rattle.desk_model.specs.Standing.{Standing};
ghost use Rattle.intent_journal.specs.Sweeps.{Sweeps};
ghost use Rattle.intent_journal.specs.Temps.{IsFileOrAbsent};
ghost use Rattle.plan_run.specs.Quiet.{IsQuiet};
ghost use Rattle.command_steps.specs.Steps.{Step};
ghost use Rattle.command_steps.specs.Orders.{Takes};
ghost use Rattle.deploy_engine.specs.SettleWork.{with_paths, up_to_changes, settling, settle_work};
ghost use Rattle.deploy_engine.specs.SettleWork.{AreFound, Begins};
ghost use Rattle.deploy_engine.specs.Carried.{Carried};

use crate::Limits;
use crate::commands::Report;
use crate::running::run_plan;
use answer_lines::{Totals, total_lines};
use change_choices::{Choices, PathActions};
use change_detect::Change;
use command_steps::{Stop, changes_of, manifest_of, settle_of, start_change};
use manifest_json::Manifest;
use move_plan::Plan;
use std::alloc::Global;
use tree_fs::Tree;

/// What a settlement finds.
#[derive(Drop)]
pub(crate) struct Found {
    /// The manifest that is there.
    pub there: Option<Manifest>,
    /// Its rows that others changed, in path order.
    pub changes: Vec<Change>,
}

/// Settles each change by the action of its class.
pub(crate) fn settle<T: Tree>(
    alloc: Global,
    choices: Choices,
    limits: &Limits,
    tree: &mut T,
) -> Result<Report, Stop>
    ensures carried { T.tells → Carried (settle_work choices) limits.now
        (T.story tree.old) (T.story tree.new) result }
    ensures cause { HasCause Stop.TreeFault (T.faults tree.old) (T.faults tree.new) result }
{
    let choices = choices_with(choices, PathActions::new(alloc));
    let found = find_changes(alloc, limits, tree)?;
    settle_found(alloc, &choices, &found, limits, tree)
}

/// The choices with these actions for single paths.
pub(crate) fn choices_with(choices: Choices, paths: PathActions) -> Choices
    ensures { result ≡ with_paths choices paths }
{
    Choices {
        replaced: choices.replaced,
        changed: choices.changed,
        deleted: choices.deleted,
        source_deleted: choices.source_deleted,
        gone: choices.gone,
        paths,
    }
}

/// Takes the steps of a settlement up to the changes that it finds.
pub(crate) fn find_changes<T: Tree>(
    alloc: Global,
    limits: &Limits,
    tree: &mut T,
) -> Result<Found, Stop>
    ensures takes { T.tells →
        Takes up_to_changes limits.now (T.story tree.old) (T.story tree.new)
        (AreFound (disk_of (T.story tree.new))) result }
    ensures order { IfOk result (λ found. AreRising (change_paths found.changes.items)) }
    ensures stops { T.tells → Along (Sweeps (disk_of (T.story tree.old)))
        (T.story tree.old) (T.story tree.new) }
    ensures open { T.tells → OnOk result ((which : Control) →
        IsFileOrAbsent (disk_of (T.story tree.new)) (control_spot which)) }
    ensures quiet { T.tells → OnOk result (Standing (disk_of (T.story tree.old))
        → IsQuiet (disk_of (T.story tree.new))) }
    ensures cause { HasCause Stop.TreeFault (T.faults tree.old) (T.faults tree.new) result }
{
    start_change(tree)?;
    let there = manifest_of(alloc, tree, limits)?;
    let changes = changes_of(alloc, tree, &there)?;
    Ok(Found { there, changes })
}

/// Settles the changes that were found, behind the steps of the settlement so far.
pub(crate) fn settle_found<T: Tree>(
    alloc: Global,
    choices: &Choices,
    found: &Found,
    limits: &Limits,
    tree: &mut T,
) -> Result<Report, Stop>
    requires fit { AllByRecursion (Fits found.now.changes.items) choices.now.paths }
    requires found { T.tells → AreFound (disk_of (T.story tree.old)) found.now }
    requires open { T.tells → (which : Control) →
        IsFileOrAbsent (disk_of (T.story tree.old)) (control_spot which) }
    ensures carried { T.tells → (steps : List Step) (start : Story)
        → Begins steps limits.now start (T.story tree.old)
        → Carried (settling steps choices.now) limits.now start (T.story tree.new) result }
    ensures cause { HasCause Stop.TreeFault (T.faults tree.old) (T.faults tree.new) result }
{
    let changes = found.changes.as_slice();
    let plan = settle_of(alloc, tree, &found.there, changes, choices)?;
    let lines = total_lines(alloc, &totals_of(changes, &plan))?;
    run_plan(alloc, tree, plan, &found.there, limits)?;
    Ok(Report {
        lines,
        changes: false,
    })
}

fn totals_of(changes: &[Change], plan: &Plan) -> Totals
    ensures { result ≡ Totals.Settled
        (length changes.now) (length plan.now.sets) (length plan.now.saves) }
{
    Totals::Settled {
        changes: changes.len() as u64,
        sets: plan.sets.as_slice().len() as u64,
        saves: plan.saves.as_slice().len() as u64,
    }
}
