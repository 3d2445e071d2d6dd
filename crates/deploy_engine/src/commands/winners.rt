// `winners`: tells which mod wins each provided path.
ghost use Rattle.fault_count.specs.Causes.{HasCause};
ghost use Rattle.deploy_engine.specs.WinnersWork.{winners_work};
ghost use Rattle.deploy_engine.specs.Carried.{Carried};

use crate::Limits;
use crate::commands::Report;
use answer_lines::winner_lines;
use command_steps::{Stop, check_start, look_at_winners};
use std::alloc::Global;
use tree_fs::Tree;

pub(crate) fn tell_winners<T: Tree>(
    alloc: Global,
    limits: &Limits,
    tree: &mut T,
) -> Result<Report, Stop>
    ensures carried { T.tells →
        Carried winners_work limits.now (T.story tree.old) (T.story tree.new) result }
    ensures cause { HasCause Stop.TreeFault (T.faults tree.old) (T.faults tree.new) result }
{
    check_start(tree)?;
    let look = look_at_winners(alloc, tree, limits)?;
    let lines = winner_lines(alloc, look.wins.as_slice())?;
    Ok(Report {
        lines,
        changes: false,
    })
}
