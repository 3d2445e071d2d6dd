// `conflicts`: tells the paths that several mods provide, and the pairs that no rule orders.
ghost use Rattle.std.specs.Prelude.{IfOk};
ghost use Rattle.fault_count.specs.Causes.{HasCause};
ghost use Rattle.command_steps.specs.Found.{IsWhole};
ghost use Rattle.deploy_engine.specs.ConflictsWork.{AreConflictsOf, HasConflictLines, conflicts_work};
ghost use Rattle.deploy_engine.specs.Carried.{Carried};

use crate::Limits;
use crate::commands::Report;
use answer_lines::conflict_lines;
use command_steps::{Looked, Stop, check_start, look_at_winners};
use conflict_report::conflicts;
use std::alloc::{AllocError, Global};
use tree_fs::Tree;

pub(crate) fn tell_conflicts<T: Tree>(
    alloc: Global,
    limits: &Limits,
    tree: &mut T,
) -> Result<Report, Stop>
    ensures carried { T.tells →
        Carried conflicts_work limits.now (T.story tree.old) (T.story tree.new) result }
    ensures cause { HasCause Stop.TreeFault (T.faults tree.old) (T.faults tree.new) result }
{
    check_start(tree)?;
    let look = look_at_winners(alloc, tree, limits)?;
    let lines = lines_of(alloc, &look)?;
    Ok(Report {
        lines,
        changes: false,
    })
}

// The lines of the conflicts among the mods that were looked at.
fn lines_of(alloc: Global, look: &Looked) -> Result<Vec<u8>, AllocError>
    requires { IsWhole look.now }
    ensures { IfOk result (λ lines. HasConflictLines look.now lines.items) }
{
    let report = report_of(alloc, look)?;
    conflict_lines(alloc, look.ids.as_slice(), &report)
}

/// The conflicts among the mods that were looked at.
pub(crate) fn report_of(alloc: Global, look: &Looked) -> Result<conflict_report::Report, AllocError>
    requires { IsWhole look.now }
    ensures { IfOk result (AreConflictsOf look.now) }
{
    let report = conflicts(
        alloc,
        look.order.as_slice(),
        &look.graph,
        look.scans.as_slice(),
        look.wins.as_slice(),
    )?;
    Ok(report)
}
