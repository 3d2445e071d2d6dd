// `order`: tells the load order.
ghost use Rattle.fault_count.specs.Causes.{HasCause};
ghost use Rattle.deploy_engine.specs.OrderWork.{order_work};
ghost use Rattle.deploy_engine.specs.Carried.{Carried};

use crate::Limits;
use crate::commands::Report;
use answer_lines::order_lines;
use command_steps::{Stop, check_start, look_at_order};
use std::alloc::Global;
use tree_fs::Tree;

pub(crate) fn tell_order<T: Tree>(
    alloc: Global,
    limits: &Limits,
    tree: &mut T,
) -> Result<Report, Stop>
    ensures carried { T.tells →
        Carried order_work limits.now (T.story tree.old) (T.story tree.new) result }
    ensures cause { HasCause Stop.TreeFault (T.faults tree.old) (T.faults tree.new) result }
{
    check_start(tree)?;
    let look = look_at_order(alloc, tree, limits)?;
    let lines = order_lines(alloc, look.ids.as_slice(), look.order.as_slice())?;
    Ok(Report {
        lines,
        changes: false,
    })
}
