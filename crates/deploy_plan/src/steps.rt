// Old rows and winners, walked together in path order.
ghost use Rattle.std.specs.Prelude.{◌≡◌, IfOk, map};
ghost use Rattle.deploy_plan.specs.Walk.{merged};
ghost use Rattle.deploy_plan.specs.Told.{step_seen, win_seen};

use crate::wins::Won;
use manifest_json::Row;
use std::alloc::{AllocError, Global};
use std::cmp::Ordering;

/// A path of an old row, of both, or of a winner.
#[derive(Clone, Copy)]
pub(crate) enum WalkStep<'a> {
    RowAlone(&'a Row),
    Both(&'a Row, Won<'a>),
    WinAlone(Won<'a>),
}

/// The rows and the winners in path order, those of one path together.
pub(crate) fn steps<'a>(
    alloc: Global,
    rows: &'a [Row],
    wins: &[Won<'a>],
) -> Result<Vec<WalkStep<'a>>, AllocError>
    ensures { IfOk result (λ steps.
        map step_seen steps.items ≡ merged rows.now (map win_seen wins.now)) }
{
    let mut found = Vec::new(alloc);
    let mut i = 0;
    let mut j = 0;
    while i < rows.len() && j < wins.len() {
        let row = &rows[i];
        let win = wins[j];
        match row.path.cmp(win.path) {
            Ordering::Less => {
                found.push(WalkStep::RowAlone(row))?;
                i += 1;
            }
            Ordering::Equal => {
                found.push(WalkStep::Both(row, win))?;
                i += 1;
                j += 1;
            }
            Ordering::Greater => {
                found.push(WalkStep::WinAlone(win))?;
                j += 1;
            }
        }
    }
    for row in &rows[i..] {
        found.push(WalkStep::RowAlone(row))?;
    }
    for win in &wins[j..] {
        found.push(WalkStep::WinAlone(*win))?;
    }
    Ok(found)
}
