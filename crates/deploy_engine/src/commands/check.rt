// `check`: tells what others changed since the last deployment.
ghost use Rattle.std.specs.Prelude.{◌≡◌, ◌≢◌, ◌↔◌, [], IsTrue};
ghost use Rattle.fault_count.specs.Causes.{HasCause};
ghost use Rattle.tree_fs.specs.Story.{disk_of};
ghost use Rattle.command_steps.specs.Orders.{Takes};
ghost use Rattle.deploy_engine.specs.CheckWork.{IsChecked, check_work};
ghost use Rattle.deploy_engine.specs.Carried.{Carried};

use crate::Limits;
use crate::commands::Report;
use answer_lines::change_lines;
use change_detect::Change;
use command_steps::{Stop, changes_of, check_start, manifest_of};
use manifest_json::Manifest;
use std::alloc::Global;
use tree_fs::Tree;

/// The manifest, and what others changed since it was written.
#[derive(Drop)]
pub(crate) struct Checked {
    pub there: Option<Manifest>,
    pub changes: Vec<Change>,
}

pub(crate) fn find_changes<T: Tree>(
    alloc: Global,
    limits: &Limits,
    tree: &mut T,
) -> Result<Checked, Stop>
    ensures takes { T.tells → Takes check_work.steps limits.now
        (T.story tree.old) (T.story tree.new) (IsChecked (disk_of (T.story tree.old))) result }
    ensures same { T.tells → T.story tree.new ≡ T.story tree.old }
    ensures cause { HasCause Stop.TreeFault (T.faults tree.old) (T.faults tree.new) result }
{
    check_start(tree)?;
    let there = manifest_of(alloc, tree, limits)?;
    let changes = changes_of(alloc, tree, &there)?;
    Ok(Checked { there, changes })
}

pub(crate) fn tell_changes<T: Tree>(
    alloc: Global,
    limits: &Limits,
    tree: &mut T,
) -> Result<Report, Stop>
    ensures carried { T.tells →
        Carried check_work limits.now (T.story tree.old) (T.story tree.new) result }
    ensures cause { HasCause Stop.TreeFault (T.faults tree.old) (T.faults tree.new) result }
{
    let found = find_changes(alloc, limits, tree)?;
    let lines = change_lines(alloc, found.changes.as_slice())?;
    Ok(Report {
        lines,
        changes: are_some(found.changes.as_slice()),
    })
}

fn are_some(changes: &[Change]) -> bool
    ensures { IsTrue result ↔ (changes.now ≢ []) }
{
    match changes {
        [] => false,
        _ => true,
    }
}
