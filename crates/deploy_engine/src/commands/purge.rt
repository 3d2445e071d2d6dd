// `purge`: takes off what was deployed.
ghost use Rattle.std.specs.Prelude.{◌≡◌, length};
ghost use Rattle.fault_count.specs.Causes.{HasCause};
ghost use Rattle.move_plan.specs.Lines.{row_count};
ghost use Rattle.deploy_engine.specs.PurgeWork.{purge_work};
ghost use Rattle.deploy_engine.specs.Carried.{Carried};

use crate::Limits;
use crate::commands::Report;
use crate::running::run_plan;
use answer_lines::{Totals, total_lines};
use command_steps::{Stop, manifest_of, purge_of, start_change};
use manifest_json::Manifest;
use move_plan::Plan;
use std::alloc::Global;
use tree_fs::Tree;

pub(crate) fn purge<T: Tree>(alloc: Global, limits: &Limits, tree: &mut T) -> Result<Report, Stop>
    ensures carried { T.tells →
        Carried purge_work limits.now (T.story tree.old) (T.story tree.new) result }
    ensures cause { HasCause Stop.TreeFault (T.faults tree.old) (T.faults tree.new) result }
{
    start_change(tree)?;
    let there = manifest_of(alloc, tree, limits)?;
    let plan = purge_of(alloc, tree, &there)?;
    let lines = total_lines(alloc, &totals_of(&there, &plan))?;
    run_plan(alloc, tree, plan, &there, limits)?;
    Ok(Report {
        lines,
        changes: false,
    })
}

fn totals_of(there: &Option<Manifest>, plan: &Plan) -> Totals
    ensures { result ≡ Totals.Purged
        (row_count there.now) (length plan.now.sets) (length plan.now.saves) }
{
    Totals::Purged {
        rows: rows_of(there),
        sets: plan.sets.as_slice().len() as u64,
        saves: plan.saves.as_slice().len() as u64,
    }
}

fn rows_of(there: &Option<Manifest>) -> u64
    ensures { result ≡ row_count there.now }
{
    match there {
        Some(manifest) => manifest.rows.as_slice().len() as u64,
        None => 0,
    }
}
