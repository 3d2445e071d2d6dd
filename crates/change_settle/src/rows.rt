// The rows that are left.
ghost use Rattle.std.specs.Prelude.{◌≡◌, IfOk, map, filter_map};
ghost use Rattle.std.specs.List.{AllByRecursion};
ghost use Rattle.fault_count.specs.Causes.{HasCause};
ghost use Rattle.tree_fs.specs.Spot.{Spot, spot_of};
ghost use Rattle.tree_fs.specs.Disk.{IsFile};
ghost use Rattle.tree_fs.specs.Story.{disk_of};
ghost use Rattle.tree_fs.specs.declared.tree.TreeError.TheVariants.{Failed};
ghost use Rattle.manifest_json.specs.Sound.{IsRow};
ghost use Rattle.desk_model.specs.Settled.{new_digest};
ghost use Rattle.change_settle.specs.Steps.{step_task};
ghost use Rattle.change_settle.specs.Tasks.{file_spot, step_row, task_next};
ghost use Rattle.change_settle.specs.Rows.{AreLeft, HasItsFile, IsLeft, Renews};

use crate::acts::Act;
use crate::lists::game_place;
use crate::walk::RowStep;
use manifest_json::Row;
use plan_lists::{push_some, staged_row};
use stage_scan::digest_of;
use std::alloc::{AllocError, Global};
use tree_fs::{Place, Tree, TreeError};

// The row with the digest of the file at a place.
fn renewed<T: Tree>(tree: &mut T, row: &Row, place: Place) -> Result<Row, TreeError>
    requires { T.tells → IsFile (disk_of (T.story tree.old)) (spot_of place) }
    ensures left { IfOk result (Renews row.now) }
    ensures answer { T.tells →
        IfOk result (λ made.
        made ≡ new_digest (disk_of (T.story tree.old)) row.now (spot_of place)) }
    ensures same { T.tells → T.story tree.new ≡ T.story tree.old }
    ensures cause { HasCause Failed (T.faults tree.old) (T.faults tree.new) result }
{
    let digest = digest_of(tree, &place)?;
    Ok(row.with_digest(digest)?)
}

// What is left of a row.
fn next_row<T: Tree>(alloc: Global, tree: &mut T, step: RowStep) -> Result<Option<Row>, TreeError>
    requires row { IsRow (step_row step) }
    requires told { T.tells → HasItsFile (disk_of (T.story tree.old)) (step_task step) }
    ensures left { IfOk result (IsLeft (step_row step.entry)) }
    ensures answer { T.tells →
        IfOk result (λ row. row ≡ task_next (disk_of (T.story tree.old)) (step_task step.entry)) }
    ensures same { T.tells → T.story tree.new ≡ T.story tree.old }
    ensures cause { HasCause Failed (T.faults tree.old) (T.faults tree.new) result }
{
    match step.act {
        Act::Leave => Ok(Some(step.row.copy()?)),
        Act::SetAside | Act::Revert | Act::LinkAgain => {
            let place = staged_row(alloc, step.row)?;
            Ok(Some(renewed(tree, step.row, place)?))
        }
        Act::Import | Act::Accept | Act::StageAgain => {
            let place = game_place(alloc, step.row)?;
            Ok(Some(renewed(tree, step.row, place)?))
        }
        Act::LetGo => Ok(None),
        Act::Drop => Ok(None),
    }
}

/// The rows that are left, in path order. The file of each row that isn't clean is read, as far as
/// the row stays.
pub(crate) fn next_rows<T: Tree>(
    alloc: Global,
    tree: &mut T,
    steps: &[RowStep],
) -> Result<Vec<Row>, TreeError>
    requires rows { AllByRecursion (λ s. IsRow (step_row s)) steps.now }
    requires told { T.tells →
        AllByRecursion (λ s. HasItsFile (disk_of (T.story tree.old)) (step_task s)) steps.now }
    ensures left { IfOk result (λ rows. AreLeft (map step_row steps.now) rows.items) }
    ensures answer { T.tells →
        IfOk result (λ rows. rows.items ≡ filter_map (task_next (disk_of (T.story tree.old)))
        (map step_task steps.now)) }
    ensures same { T.tells → T.story tree.new ≡ T.story tree.old }
    ensures cause { HasCause Failed (T.faults tree.old) (T.faults tree.new) result }
{
    let mut rows = Vec::new(alloc);
    for step in steps {
        let row = next_row(alloc, tree, *step)?;
        push_some(&mut rows, row)?;
    }
    Ok(rows)
}
