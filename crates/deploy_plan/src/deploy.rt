// A plan for winners with their sources, and for those of a table.
ghost use Rattle.std.specs.Prelude.{◌≡◌, IfOk, IfErr, OnOk, Some, map};
ghost use Rattle.std.specs.List.{AllByRecursion};
ghost use Rattle.fault_count.specs.Causes.{HasCause};
ghost use Rattle.rel_paths.specs.Names.{IsFreePath};
ghost use Rattle.tree_fs.specs.Disk.{IsFile};
ghost use Rattle.tree_fs.specs.Story.{disk_of};
ghost use Rattle.stage_scan.specs.Files.{AreInPathOrder};
ghost use Rattle.winner_table.specs.Folders.{AreApart};
ghost use Rattle.winner_table.specs.Winners.{paths_of};
ghost use Rattle.move_plan.specs.Sound.{SoundPlan};
ghost use Rattle.intent_json.specs.declared.intent.Phase.TheVariants as phase;
ghost use Rattle.desk_model.specs.Deployed.{Deployed, won_spot};
ghost use Rattle.desk_model.specs.Outcome.{outcome_by};
ghost use Rattle.plan_model.specs.Rows.{old_of};
ghost use Rattle.deploy_plan.specs.declared.error.PlanError.TheVariants.{Failed};
ghost use Rattle.deploy_plan.specs.Refusals.{IsPlanRefusal, NoRefusal};
ghost use Rattle.deploy_plan.specs.Plans.{CanDeploy, DeployPlan};
ghost use Rattle.deploy_plan.specs.Sources.{AreFrom, AreSources, wins_of};
ghost use Rattle.deploy_plan.specs.Told.{AreGoodWins, win_seen};

use crate::PlanError;
use crate::cases::cases;
use crate::parents::Parents;
use crate::plan::plan_of;
use crate::refuse::{check_changes, check_turned};
use crate::steps::steps;
use crate::wins::{Won, with_sources};
use manifest_json::Manifest;
use move_plan::Plan;
use stage_scan::{Scan, Sources};
use std::alloc::Global;
use tree_fs::Tree;
use winner_table::WinRow;

// The plan for these winners.
fn plan_for<T: Tree>(
    alloc: Global,
    tree: &mut T,
    old: &Manifest,
    wins: &[Won],
) -> Result<Plan, PlanError>
    requires wins { AreGoodWins (map win_seen wins.now) }
    requires staged { T.tells →
        AllByRecursion (λ w. IsFile (disk_of (T.story tree.old)) (won_spot w))
        (map win_seen wins.now) }
    ensures can { T.tells →
        OnOk result (CanDeploy (disk_of (T.story tree.old)) old.now (map win_seen wins.now)) }
    ensures planned { T.tells →
        IfOk result (DeployPlan (disk_of (T.story tree.old)) old.now (map win_seen wins.now)) }
    ensures refused { T.tells →
        IfErr result (IsPlanRefusal (disk_of (T.story tree.old)) old.now.rows
        (map win_seen wins.now)) }
    ensures same { T.tells → T.story tree.new ≡ T.story tree.old }
    ensures cause { HasCause Failed (T.faults tree.old) (T.faults tree.new) result }
{
    let _ = old.folders.as_slice();
    let rows = old.rows.as_slice();
    let steps = steps(alloc, rows, wins)?;
    check_changes(alloc, tree, old)?;
    check_turned(alloc, rows, &steps)?;
    let mut parents = Parents::new(alloc);
    let cases = cases(alloc, tree, &mut parents, &steps)?;
    Ok(plan_of(alloc, tree, old, wins, &cases, parents.missing)?)
}

/// The plan of a deployment: what leads from the disk as it is to the one with these winners, each
/// from the source of its mod's first scan. `sources` are those of `scans`, in the same order.
///
/// For each old row it looks as `quick_changes` does. Then it looks at each folder above the path of
/// a winner without a row once, at the path where its folder is there, and at the backup place where
/// a file stands there; and at the backup place of each row that loses its path and is shadowed. It
/// reads the staged file of each winner whose row isn't kept, once, and lists each own folder that
/// no winner's path lies below. It writes nothing.
pub fn make_plan<T: Tree>(
    alloc: Global,
    tree: &mut T,
    old: &Manifest,
    wins: &[WinRow],
    scans: &[Scan],
    sources: &[Sources],
) -> Result<Plan, PlanError>
    requires order { AreInPathOrder (paths_of wins.now) }
    requires free { AllByRecursion IsFreePath (paths_of wins.now) }
    requires apart { AreApart (paths_of wins.now) }
    requires belong { AreSources scans.now sources.now }
    requires from { AreFrom scans.now sources.now wins.now }
    requires staged { T.tells →
        AllByRecursion (λ w. IsFile (disk_of (T.story tree.old)) (won_spot w))
        (wins_of scans.now sources.now wins.now) }
    ensures planned { T.tells →
        IfOk result (DeployPlan (disk_of (T.story tree.old)) old.now
        (wins_of scans.now sources.now wins.now)) }
    ensures passes { T.tells →
        OnOk result (NoRefusal (disk_of (T.story tree.old)) old.now.rows
        (wins_of scans.now sources.now wins.now)) }
    ensures sound { T.tells → IfOk result (SoundPlan (disk_of (T.story tree.old))) }
    ensures leads { T.tells →
        let a = disk_of (T.story tree.old) in
        old.now ≡ old_of a → IfOk result (λ plan.
        Deployed a (wins_of scans.now sources.now wins.now)
        (outcome_by a (Some (record { phase = phase.Set; plan = plan })))) }
    ensures refused { T.tells →
        IfErr result (IsPlanRefusal (disk_of (T.story tree.old)) old.now.rows
        (wins_of scans.now sources.now wins.now)) }
    ensures same { T.tells → T.story tree.new ≡ T.story tree.old }
    ensures cause { HasCause Failed (T.faults tree.old) (T.faults tree.new) result }
{
    let won = with_sources(alloc, wins, scans, sources)?;
    plan_for(alloc, tree, old, &won)
}
