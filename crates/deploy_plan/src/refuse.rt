// What refuses a deployment before its paths are looked at.
ghost use Rattle.std.specs.Prelude.{◌≡◌, IfErr, OnOk, map};
ghost use Rattle.std.specs.List.{AllByRecursion};
ghost use Rattle.fault_count.specs.Causes.{HasCause};
ghost use Rattle.manifest_json.specs.Paths.{AreRising};
ghost use Rattle.manifest_json.specs.Records.{paths_of};
ghost use Rattle.tree_fs.specs.Story.{disk_of};
ghost use Rattle.deploy_plan.specs.declared.error.PlanError.TheVariants.{Failed};
ghost use Rattle.deploy_plan.specs.Refusals.{HasNoChanges};
ghost use Rattle.deploy_plan.specs.Steps.{IsNotTurned, RefusedByChanges, RefusedByTurned};
ghost use Rattle.deploy_plan.specs.Told.{step_seen};

use crate::PlanError;
use crate::steps::WalkStep;
use crate::turned::first_turned;
use change_detect::quick_changes;
use manifest_json::{Manifest, Row};
use std::alloc::Global;
use tree_fs::Tree;

/// Refuses where others changed files that were deployed.
pub(crate) fn check_changes<T: Tree>(
    alloc: Global,
    tree: &mut T,
    old: &Manifest,
) -> Result<(), PlanError>
    ensures answer { T.tells →
        OnOk result (HasNoChanges (disk_of (T.story tree.old)) old.now.rows) }
    ensures refused { T.tells →
        IfErr result (RefusedByChanges (disk_of (T.story tree.old)) old.now.rows) }
    ensures same { T.tells → T.story tree.new ≡ T.story tree.old }
    ensures cause { HasCause Failed (T.faults tree.old) (T.faults tree.new) result }
{
    let changes = quick_changes(alloc, tree, old)?;
    match changes.first() {
        None => Ok(()),
        Some(change) => Err(PlanError::ChangesFound {
            first: change.path.copy()?,
            count: changes.len() as u64,
        }),
    }
}

/// Refuses where the path of a new winner lies below that of a row, or above one.
pub(crate) fn check_turned(alloc: Global, rows: &[Row], steps: &[WalkStep]) -> Result<(), PlanError>
    requires { AreRising (paths_of rows.now) }
    ensures answer { OnOk result (AllByRecursion (IsNotTurned rows.now) (map step_seen steps.now)) }
    ensures refused { IfErr result (RefusedByTurned rows.now (map step_seen steps.now)) }
{
    match first_turned(alloc, rows, steps)? {
        None => Ok(()),
        Some(path) => Err(PlanError::Turned(path)),
    }
}
