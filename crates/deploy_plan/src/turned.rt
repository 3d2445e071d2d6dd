// Winning paths that lie below the path of a row, or above one.
ghost use Rattle.std.specs.Prelude.{◌↔◌, ◌≡◌, IsTrue, IfOk, MatchOption, map};
ghost use Rattle.std.specs.List.{AllByRecursion};
ghost use Rattle.manifest_json.specs.Paths.{AreRising};
ghost use Rattle.manifest_json.specs.Records.{paths_of};
ghost use Rattle.deploy_plan.specs.Refusals.{IsTurned};
ghost use Rattle.deploy_plan.specs.Steps.{IsNotTurned, TurnsAt, IsFirstToTurn};
ghost use Rattle.deploy_plan.specs.Told.{step_seen};

use crate::search::lies_below;
use crate::steps::WalkStep;
use manifest_json::Row;
use plan_lists::has_below;
use rel_paths::RelPath;
use std::alloc::{AllocError, Global};

// Whether this path lies below that of a row, or above one.
fn is_turned(alloc: Global, rows: &[Row], path: &RelPath) -> Result<bool, AllocError>
    requires { AreRising (paths_of rows.now) }
    ensures { IfOk result (λ yes. IsTrue yes ↔ IsTurned rows.now path.now) }
{
    if lies_below(rows, path) {
        return Ok(true);
    }
    has_below(alloc, rows, path)
}

// The path of a step that a mod wins, where it lies below that of a row, or above one. Where a row
// has the path too, it doesn't, since no path of a row lies below that of another.
fn turned_by(alloc: Global, rows: &[Row], step: WalkStep) -> Result<Option<RelPath>, AllocError>
    requires { AreRising (paths_of rows.now) }
    ensures { IfOk result (λ path. MatchOption path (IsNotTurned rows.now (step_seen step.entry))
        (TurnsAt rows.now (step_seen step.entry))) }
{
    match step {
        WalkStep::RowAlone(_) => Ok(None),
        WalkStep::Both(_, _) => Ok(None),
        WalkStep::WinAlone(win) => {
            if is_turned(alloc, rows, win.path)? {
                Ok(Some(win.path.copy()?))
            } else {
                Ok(None)
            }
        }
    }
}

/// The path of the first step that a mod wins and that lies below the path of a row, or above one.
pub(crate) fn first_turned(
    alloc: Global,
    rows: &[Row],
    steps: &[WalkStep],
) -> Result<Option<RelPath>, AllocError>
    requires { AreRising (paths_of rows.now) }
    ensures { IfOk result (λ path. MatchOption path
        (AllByRecursion (IsNotTurned rows.now) (map step_seen steps.now))
        (IsFirstToTurn rows.now (map step_seen steps.now))) }
{
    for step in steps {
        let found = turned_by(alloc, rows, *step)?;
        if let Some(path) = found {
            return Ok(Some(path));
        }
    }
    Ok(None)
}
