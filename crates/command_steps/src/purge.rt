// The plan of a purge.
ghost use Rattle.std.specs.Prelude.{◌≡◌, ◌∷◌, [], Some, IfOk};
ghost use Rattle.fault_count.specs.Causes.{HasCause};
ghost use Rattle.tree_fs.specs.Story.{disk_of};
ghost use Rattle.move_plan.specs.Sound.{SoundPlan};
ghost use Rattle.intent_json.specs.declared.intent.Phase.TheVariants as phase;
ghost use Rattle.desk_model.specs.Outcome.{outcome_by};
ghost use Rattle.desk_model.specs.Purged.{Purged};
ghost use Rattle.plan_model.specs.Rows.{old_of};
ghost use Rattle.command_steps.specs.declared.limits.Limits.{Limits};
ghost use Rattle.command_steps.specs.declared.stop.Stop.TheVariants.{TreeFault};
ghost use Rattle.command_steps.specs.Manifests.{HasManifest};
ghost use Rattle.command_steps.specs.Plans.{HasPurgePlan};
ghost use Rattle.command_steps.specs.Steps.{purged};
ghost use Rattle.command_steps.specs.Orders.{Takes};

use crate::Stop;
use crate::manifest::no_rows;
use manifest_json::Manifest;
use move_plan::Plan;
use purge_run::purge_plan;
use std::alloc::Global;
use tree_fs::Tree;

// The plan over this manifest.
fn purge_over<T: Tree>(alloc: Global, tree: &mut T, old: &Manifest) -> Result<Plan, Stop>
    requires { T.tells → old.now ≡ old_of (disk_of (T.story tree.old)) }
    ensures takes { T.tells → (limits : Limits)
        → Takes (purged ∷ []) limits (T.story tree.old) (T.story tree.new)
        (HasPurgePlan (disk_of (T.story tree.old))) result }
    ensures sound { T.tells → IfOk result (SoundPlan (disk_of (T.story tree.old))) }
    ensures leads { T.tells →
        let a = disk_of (T.story tree.old) in
        IfOk result (λ plan.
        Purged a (outcome_by a (Some (record { phase = phase.Set; plan = plan })))) }
    ensures same { T.tells → T.story tree.new ≡ T.story tree.old }
    ensures cause { HasCause TreeFault (T.faults tree.old) (T.faults tree.new) result }
{
    Ok(purge_plan(alloc, tree, old)?)
}

/// The plan that purges what the manifest that is there lists. `Blocked` tells the first place of a row
/// where no file can be, then `keep/aside` where it is no folder; `AsideFull` comes last.
pub fn purge_of<T: Tree>(
    alloc: Global,
    tree: &mut T,
    there: &Option<Manifest>,
) -> Result<Plan, Stop>
    requires { T.tells → HasManifest (disk_of (T.story tree.old)) there.now }
    ensures takes { T.tells → (limits : Limits)
        → Takes (purged ∷ []) limits (T.story tree.old) (T.story tree.new)
        (HasPurgePlan (disk_of (T.story tree.old))) result }
    ensures sound { T.tells → IfOk result (SoundPlan (disk_of (T.story tree.old))) }
    ensures leads { T.tells →
        let a = disk_of (T.story tree.old) in
        IfOk result (λ plan.
        Purged a (outcome_by a (Some (record { phase = phase.Set; plan = plan })))) }
    ensures same { T.tells → T.story tree.new ≡ T.story tree.old }
    ensures cause { HasCause TreeFault (T.faults tree.old) (T.faults tree.new) result }
{
    match there {
        Some(old) => purge_over(alloc, tree, old),
        None => purge_over(alloc, tree, &no_rows(alloc)),
    }
}
