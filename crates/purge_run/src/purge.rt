// The plan of a purge, or the first thing that refuses it.
ghost use Rattle.std.specs.Prelude.{◌≡◌, [], None, Some, IfOk, IfErr, OnOk};
ghost use Rattle.fault_count.specs.Causes.{HasCause};
ghost use Rattle.tree_fs.specs.Story.{disk_of};
ghost use Rattle.move_plan.specs.Idle.{IsIdle};
ghost use Rattle.move_plan.specs.Sound.{SoundPlan};
ghost use Rattle.intent_json.specs.declared.intent.Phase.TheVariants as phase;
ghost use Rattle.desk_model.specs.Purged.{Purged};
ghost use Rattle.desk_model.specs.Outcome.{outcome_by};
ghost use Rattle.plan_model.specs.Rows.{old_of};
ghost use Rattle.purge_run.specs.declared.error.PurgeError.TheVariants.{Failed};
ghost use Rattle.purge_run.specs.Plans.{IsPurgePlan};
ghost use Rattle.purge_run.specs.Refusals.{NoRefusal, IsPurgeRefusal};

use crate::PurgeError;
use crate::aside::aside_for;
use crate::cases::cases;
use crate::plan::plan_of;
use manifest_json::Manifest;
use move_plan::Plan;
use std::alloc::Global;
use tree_fs::Tree;

/// The plan of a purge: what leads from the disk as it is to the one without what was deployed,
/// where each original is back at its path, and files that others put over links are set aside.
/// Without rows and own folders it is idle.
///
/// For each row it looks at its path, then, where a file stands there, at its staged place and
/// whether both name one file, and then, where the row is shadowed, at its backup place. It looks
/// at `keep/aside` only where a file is to be set aside. It lists each own folder below which no
/// original comes back, and looks whether it is there where no row's file was found below it. It
/// writes nothing.
pub fn purge_plan<T: Tree>(alloc: Global, tree: &mut T, old: &Manifest) -> Result<Plan, PurgeError>
    ensures planned { T.tells → IfOk result (IsPurgePlan (disk_of (T.story tree.old)) old.now) }
    ensures passes { T.tells →
        OnOk result (NoRefusal (disk_of (T.story tree.old)) old.now.rows) }
    ensures sound { T.tells → IfOk result (SoundPlan (disk_of (T.story tree.old))) }
    ensures leads { T.tells →
        let a = disk_of (T.story tree.old) in
        old.now ≡ old_of a → IfOk result (λ plan.
        Purged a (outcome_by a (Some (record { phase = phase.Set; plan = plan })))) }
    ensures idle { old.now.rows ≡ [] → old.now.folders ≡ []
        → IfOk result (λ plan. IsIdle plan None) }
    ensures refused { T.tells →
        IfErr result (IsPurgeRefusal (disk_of (T.story tree.old)) old.now.rows) }
    ensures same { T.tells → T.story tree.new ≡ T.story tree.old }
    ensures cause { HasCause Failed (T.faults tree.old) (T.faults tree.new) result }
{
    let _ = old.folders.as_slice();
    let rows = old.rows.as_slice();
    let cases = cases(alloc, tree, rows)?;
    let aside = aside_for(alloc, tree, &cases)?;
    Ok(plan_of(alloc, tree, old, &cases, aside.number, aside.is_there)?)
}
