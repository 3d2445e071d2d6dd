// `deploy`: deploys the mods.
ghost use Rattle.std.specs.Prelude.{◌≡◌, length};
ghost use Rattle.fault_count.specs.Causes.{HasCause};
ghost use Rattle.move_plan.specs.Lines.{row_count};
ghost use Rattle.deploy_engine.specs.DeployWork.{deploy_work};
ghost use Rattle.deploy_engine.specs.Tours.{Deploys};
ghost use Rattle.deploy_engine.specs.Carried.{Carried};

use crate::Limits;
use crate::commands::Report;
use crate::running::run_plan;
use answer_lines::{Totals, total_lines};
use command_steps::{Stop, look_at_winners, manifest_of, plan_of, start_change};
use manifest_json::Manifest;
use move_plan::Plan;
use std::alloc::Global;
use tree_fs::Tree;

/// What a deployment has to say, and how many files it saved.
#[derive(Drop)]
pub(crate) struct Deployment {
    pub lines: Vec<u8>,
    pub saves: u64,
}

pub(crate) fn deploy<T: Tree>(alloc: Global, limits: &Limits, tree: &mut T) -> Result<Report, Stop>
    ensures carried { T.tells →
        Carried deploy_work limits.now (T.story tree.old) (T.story tree.new) result }
    ensures cause { HasCause Stop.TreeFault (T.faults tree.old) (T.faults tree.new) result }
{
    let deployment = deploy_mods(alloc, limits, tree)?;
    Ok(Report {
        lines: deployment.lines,
        changes: false,
    })
}

/// Deploys the mods.
pub(crate) fn deploy_mods<T: Tree>(
    alloc: Global,
    limits: &Limits,
    tree: &mut T,
) -> Result<Deployment, Stop>
    ensures deploys { T.tells →
        Deploys limits.now (T.story tree.old) (T.story tree.new) result }
    ensures cause { HasCause Stop.TreeFault (T.faults tree.old) (T.faults tree.new) result }
{
    start_change(tree)?;
    let look = look_at_winners(alloc, tree, limits)?;
    let there = manifest_of(alloc, tree, limits)?;
    let plan = plan_of(alloc, tree, &there, &look)?;
    drop(look);
    let lines = total_lines(alloc, &totals_of(&plan))?;
    let saves = count_saves(&plan);
    run_plan(alloc, tree, plan, &there, limits)?;
    Ok(Deployment { lines, saves })
}

fn count_saves(plan: &Plan) -> u64
    ensures { result ≡ length plan.now.saves }
{
    plan.saves.as_slice().len() as u64
}

fn totals_of(plan: &Plan) -> Totals
    ensures { result ≡ Totals.Deployed
        (row_count plan.now.manifest) (length plan.now.sets) (length plan.now.saves) }
{
    Totals::Deployed {
        rows: row_count(&plan.manifest),
        sets: plan.sets.as_slice().len() as u64,
        saves: count_saves(plan),
    }
}

fn row_count(manifest: &Option<Manifest>) -> u64
    ensures { result ≡ row_count manifest.now }
{
    match manifest {
        Some(manifest) => manifest.rows.as_slice().len() as u64,
        None => 0,
    }
}
