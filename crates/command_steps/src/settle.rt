// The plan of a settlement.
ghost use Rattle.std.specs.Prelude.{◌≡◌, ◌∷◌, [], None, Some, IfOk};
ghost use Rattle.std.specs.List.{AllByRecursion};
ghost use Rattle.fault_count.specs.Causes.{HasCause};
ghost use Rattle.tree_fs.specs.Story.{disk_of};
ghost use Rattle.change_choices.specs.Choice.{choice, if_allowed};
ghost use Rattle.change_detect.specs.Changes.{changes_by};
ghost use Rattle.change_detect.specs.Classes.{class_of};
ghost use Rattle.change_detect.specs.Refusals.{first_blocked};
ghost use Rattle.choice_lines.specs.Answers.{Fits};
ghost use Rattle.move_plan.specs.Sound.{SoundPlan};
ghost use Rattle.intent_json.specs.declared.intent.Phase.TheVariants as phase;
ghost use Rattle.desk_model.specs.Outcome.{outcome_by};
ghost use Rattle.desk_model.specs.Records.{rows_on};
ghost use Rattle.desk_model.specs.Settled.{Settled};
ghost use Rattle.plan_model.specs.Rows.{old_of};
ghost use Rattle.command_steps.specs.declared.limits.Limits.{Limits};
ghost use Rattle.command_steps.specs.declared.stop.Stop.TheVariants.{TreeFault};
ghost use Rattle.command_steps.specs.Manifests.{HasManifest};
ghost use Rattle.command_steps.specs.Plans.{HasSettlePlan};
ghost use Rattle.command_steps.specs.Steps.{settled};
ghost use Rattle.command_steps.specs.Orders.{Takes};

use crate::Stop;
use crate::manifest::no_rows;
use change_choices::{Action, Choices, Class, allowed};
use change_detect::Change;
use change_settle::{Decider, settle_plan};
use choice_lines::actions_by_text;
use manifest_json::Manifest;
use move_plan::Plan;
use std::alloc::Global;
use tree_fs::Tree;

// The action of a path, where it is allowed for the class of its change, otherwise the other one.
fn allowed_or(class: Class, of_path: Option<Action>, other: Action) -> Action
    ensures { result ≡ if_allowed class of_path other }
{
    match of_path {
        Some(action) if allowed(class, action) => action,
        _ => other,
    }
}

// The plan over this manifest, by the answers of these choices.
fn settle_over<T: Tree>(
    alloc: Global,
    tree: &mut T,
    old: &Manifest,
    changes: &[Change],
    choices: &Choices,
) -> Result<Plan, Stop>
    requires fit { AllByRecursion (Fits changes.now) choices.now.paths }
    requires old { T.tells → old.now ≡ old_of (disk_of (T.story tree.old)) }
    requires changes { T.tells → let d = disk_of (T.story tree.old) in
        changes.now ≡ changes_by (class_of d) (rows_on d) }
    requires told { T.tells → let d = disk_of (T.story tree.old) in
        first_blocked d (rows_on d) ≡ None }
    ensures takes { T.tells → (limits : Limits)
        → Takes (settled choices.now ∷ []) limits (T.story tree.old) (T.story tree.new)
        (HasSettlePlan choices.now (disk_of (T.story tree.old))) result }
    ensures sound { T.tells → IfOk result (SoundPlan (disk_of (T.story tree.old))) }
    ensures leads { T.tells →
        let a = disk_of (T.story tree.old) in
        IfOk result (λ plan. Settled a (choice choices.now)
        (outcome_by a (Some (record { phase = phase.Set; plan = plan })))) }
    ensures same { T.tells → T.story tree.new ≡ T.story tree.old }
    ensures cause { HasCause TreeFault (T.faults tree.old) (T.faults tree.new) result }
{
    let by_path = actions_by_text(alloc, changes, &choices.paths)?;
    let replaced = choices.replaced;
    let changed = choices.changed;
    let deleted = choices.deleted;
    let source_deleted = choices.source_deleted;
    let gone = choices.gone;
    let decider = Decider::new(choices, move |path: &str, class: Class| {
        let of_class = match class {
            Class::Replaced => replaced,
            Class::Changed => changed,
            Class::Deleted => deleted,
            Class::SourceDeleted => source_deleted,
            Class::Gone => gone,
        };
        allowed_or(class, by_path.get(path).copied(), of_class)
    });
    Ok(settle_plan(alloc, tree, old, changes, &decider)?)
}

/// The plan that settles these changes by the choices, over the manifest that is there. An action for
/// a single path is one that is allowed for the change at the path. `Blocked` tells what stands in
/// the way of the first row that is put back or goes, then `keep/aside` where it is no folder;
/// `AsideFull` comes last.
pub fn settle_of<T: Tree>(
    alloc: Global,
    tree: &mut T,
    there: &Option<Manifest>,
    changes: &[Change],
    choices: &Choices,
) -> Result<Plan, Stop>
    requires fit { AllByRecursion (Fits changes.now) choices.now.paths }
    requires there { T.tells → HasManifest (disk_of (T.story tree.old)) there.now }
    requires changes { T.tells → let d = disk_of (T.story tree.old) in
        changes.now ≡ changes_by (class_of d) (rows_on d) }
    requires told { T.tells → let d = disk_of (T.story tree.old) in
        first_blocked d (rows_on d) ≡ None }
    ensures takes { T.tells → (limits : Limits)
        → Takes (settled choices.now ∷ []) limits (T.story tree.old) (T.story tree.new)
        (HasSettlePlan choices.now (disk_of (T.story tree.old))) result }
    ensures sound { T.tells → IfOk result (SoundPlan (disk_of (T.story tree.old))) }
    ensures leads { T.tells →
        let a = disk_of (T.story tree.old) in
        IfOk result (λ plan. Settled a (choice choices.now)
        (outcome_by a (Some (record { phase = phase.Set; plan = plan })))) }
    ensures same { T.tells → T.story tree.new ≡ T.story tree.old }
    ensures cause { HasCause TreeFault (T.faults tree.old) (T.faults tree.new) result }
{
    match there {
        Some(old) => settle_over(alloc, tree, old, changes, choices),
        None => settle_over(alloc, tree, &no_rows(alloc), changes, choices),
    }
}
