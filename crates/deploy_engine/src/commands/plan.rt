// `plan`: tells what a deployment would move.
ghost use Rattle.fault_count.specs.Causes.{HasCause};
ghost use Rattle.deploy_engine.specs.PlanWork.{plan_work};
ghost use Rattle.deploy_engine.specs.Carried.{Carried};

use crate::Limits;
use crate::commands::Report;
use command_steps::{Stop, check_start, look_at_winners, manifest_of, plan_of};
use move_plan::plan_lines;
use std::alloc::Global;
use tree_fs::Tree;

pub(crate) fn tell_plan<T: Tree>(
    alloc: Global,
    limits: &Limits,
    tree: &mut T,
) -> Result<Report, Stop>
    ensures carried { T.tells →
        Carried plan_work limits.now (T.story tree.old) (T.story tree.new) result }
    ensures cause { HasCause Stop.TreeFault (T.faults tree.old) (T.faults tree.new) result }
{
    check_start(tree)?;
    let look = look_at_winners(alloc, tree, limits)?;
    let there = manifest_of(alloc, tree, limits)?;
    let plan = plan_of(alloc, tree, &there, &look)?;
    let lines = plan_lines(alloc, &plan)?;
    Ok(Report {
        lines,
        changes: false,
    })
}
