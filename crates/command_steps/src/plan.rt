// The plan of a deployment.
ghost use Rattle.std.specs.Prelude.{◌≡◌, ◌∷◌, [], IfOk, Some};
ghost use Rattle.fault_count.specs.Causes.{HasCause};
ghost use Rattle.tree_fs.specs.Story.{disk_of};
ghost use Rattle.move_plan.specs.Sound.{SoundPlan};
ghost use Rattle.intent_json.specs.declared.intent.Phase.TheVariants as phase;
ghost use Rattle.desk_model.specs.Deployed.{Deployed};
ghost use Rattle.desk_model.specs.Outcome.{outcome_by};
ghost use Rattle.plan_model.specs.Rows.{old_of};
ghost use Rattle.deploy_plan.specs.Sources.{wins_of};
ghost use Rattle.command_steps.specs.declared.limits.Limits.{Limits};
ghost use Rattle.command_steps.specs.declared.stop.Stop.TheVariants.{TreeFault};
ghost use Rattle.command_steps.specs.Found.{IsWhole, IsLooked};
ghost use Rattle.command_steps.specs.Manifests.{HasManifest};
ghost use Rattle.command_steps.specs.Plans.{HasPlan};
ghost use Rattle.command_steps.specs.Steps.{planned};
ghost use Rattle.command_steps.specs.Orders.{Takes};

use crate::manifest::no_rows;
use crate::{Looked, Stop};
use deploy_plan::make_plan;
use manifest_json::Manifest;
use move_plan::Plan;
use std::alloc::Global;
use tree_fs::Tree;

// The plan over this manifest.
fn plan_over<T: Tree>(
    alloc: Global,
    tree: &mut T,
    old: &Manifest,
    looked: &Looked,
) -> Result<Plan, Stop>
    requires whole { IsWhole looked.now }
    requires found { T.tells → IsLooked (disk_of (T.story tree.old)) looked.now }
    requires old { T.tells → old.now ≡ old_of (disk_of (T.story tree.old)) }
    ensures takes { T.tells → (limits : Limits)
        → Takes (planned ∷ []) limits (T.story tree.old) (T.story tree.new)
        (HasPlan (disk_of (T.story tree.old))) result }
    ensures sound { T.tells → IfOk result (SoundPlan (disk_of (T.story tree.old))) }
    ensures leads { T.tells →
        let a = disk_of (T.story tree.old) in
        IfOk result (λ plan.
        Deployed a (wins_of looked.now.scans.items looked.now.sources.items looked.now.wins.items)
        (outcome_by a (Some (record { phase = phase.Set; plan = plan })))) }
    ensures same { T.tells → T.story tree.new ≡ T.story tree.old }
    ensures cause { HasCause TreeFault (T.faults tree.old) (T.faults tree.new) result }
{
    let wins = looked.wins.as_slice();
    let scans = looked.scans.as_slice();
    let sources = looked.sources.as_slice();
    Ok(make_plan(alloc, tree, old, wins, scans, sources)?)
}

/// The plan that deploys the winners that were found, over the manifest that is there. What is in its
/// way is told as `Blocked`, `ChangesFound`, `Turned` or `BackupTaken`.
pub fn plan_of<T: Tree>(
    alloc: Global,
    tree: &mut T,
    there: &Option<Manifest>,
    looked: &Looked,
) -> Result<Plan, Stop>
    requires whole { IsWhole looked.now }
    requires found { T.tells → IsLooked (disk_of (T.story tree.old)) looked.now }
    requires there { T.tells → HasManifest (disk_of (T.story tree.old)) there.now }
    ensures takes { T.tells → (limits : Limits)
        → Takes (planned ∷ []) limits (T.story tree.old) (T.story tree.new)
        (HasPlan (disk_of (T.story tree.old))) result }
    ensures sound { T.tells → IfOk result (SoundPlan (disk_of (T.story tree.old))) }
    ensures leads { T.tells →
        let a = disk_of (T.story tree.old) in
        IfOk result (λ plan.
        Deployed a (wins_of looked.now.scans.items looked.now.sources.items looked.now.wins.items)
        (outcome_by a (Some (record { phase = phase.Set; plan = plan })))) }
    ensures same { T.tells → T.story tree.new ≡ T.story tree.old }
    ensures cause { HasCause TreeFault (T.faults tree.old) (T.faults tree.new) result }
{
    match there {
        Some(old) => plan_over(alloc, tree, old, looked),
        None => plan_over(alloc, tree, &no_rows(alloc), looked),
    }
}
