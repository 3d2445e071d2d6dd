// The paths at which there is a file in the end, and those at which there is none any more.
ghost use Rattle.std.specs.Prelude.{◌≡◌, IfOk, map, filter_map, option_map, if◌then◌else◌, Some, None};
ghost use Rattle.std.specs.List.{AllByRecursion};
ghost use Rattle.tree_fs.specs.Places.{game_spot};
ghost use Rattle.manifest_json.specs.Sound.{IsRow};
ghost use Rattle.change_settle.specs.Tasks.{step_row, step_seen, step_emptied, step_holding, behind_if};

use crate::acts::Act;
use crate::walk::RowStep;
use manifest_json::Row;
use plan_lists::push_some;
use rel_paths::RelPath;
use std::alloc::{AllocError, Global};

// The name of the original of a row, where it goes back.
fn original_name(alloc: Global, row: &Row, is_there: bool) -> Result<Option<RelPath>, AllocError>
    requires { IsRow row.now }
    ensures { IfOk result (λ path. option_map game_spot path ≡ behind_if row.now is_there) }
{
    if is_there {
        Ok(Some(row.path.backup_name(alloc)?))
    } else {
        Ok(None)
    }
}

// The path at which a row leaves no file any more.
fn emptied_by(alloc: Global, step: RowStep) -> Result<Option<RelPath>, AllocError>
    requires { IsRow (step_row step) }
    ensures { IfOk result (λ path.
        option_map game_spot path ≡ step_emptied (step_seen step.entry)) }
{
    match step.act {
        Act::LetGo => {
            if step.has_original {
                Ok(Some(step.row.path.backup_name(alloc)?))
            } else {
                Ok(Some(step.row.path.copy()?))
            }
        }
        Act::Drop => original_name(alloc, step.row, step.has_original),
        Act::Leave => Ok(None),
        Act::SetAside => Ok(None),
        Act::Import => Ok(None),
        Act::Revert => Ok(None),
        Act::Accept => Ok(None),
        Act::LinkAgain => Ok(None),
        Act::StageAgain => Ok(None),
    }
}

/// The paths at which there is no file any more in the end, in the order of the rows.
pub(crate) fn emptied_paths(alloc: Global, steps: &[RowStep]) -> Result<Vec<RelPath>, AllocError>
    requires { AllByRecursion (λ s. IsRow (step_row s)) steps.now }
    ensures { IfOk result (λ paths.
        map game_spot paths.items ≡ filter_map step_emptied (map step_seen steps.now)) }
{
    let mut paths = Vec::new(alloc);
    for step in steps {
        let path = emptied_by(alloc, *step)?;
        push_some(&mut paths, path)?;
    }
    Ok(paths)
}

// The path of a row, where there is a file in the end.
fn held_if(row: &Row, is_held: bool) -> Result<Option<RelPath>, AllocError>
    ensures { IfOk result (λ path. path ≡ (if is_held then Some row.now.path else None)) }
{
    if is_held {
        Ok(Some(row.path.copy()?))
    } else {
        Ok(None)
    }
}

fn held_by(step: RowStep) -> Result<Option<RelPath>, AllocError>
    ensures { IfOk result (λ path. path ≡ step_holding (step_seen step.entry)) }
{
    match step.act {
        Act::LetGo => held_if(step.row, step.has_original),
        Act::Drop => held_if(step.row, step.has_original),
        Act::Leave => held_if(step.row, true),
        Act::SetAside => held_if(step.row, true),
        Act::Import => held_if(step.row, true),
        Act::Revert => held_if(step.row, true),
        Act::Accept => held_if(step.row, true),
        Act::LinkAgain => held_if(step.row, true),
        Act::StageAgain => held_if(step.row, true),
    }
}

/// The paths of rows at which there is a file in the end, in their order.
pub(crate) fn held_paths(alloc: Global, steps: &[RowStep]) -> Result<Vec<RelPath>, AllocError>
    ensures { IfOk result (λ paths.
        paths.items ≡ filter_map step_holding (map step_seen steps.now)) }
{
    let mut paths = Vec::new(alloc);
    for step in steps {
        let path = held_by(*step)?;
        push_some(&mut paths, path)?;
    }
    Ok(paths)
}
