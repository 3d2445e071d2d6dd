// The rows of the new manifest.
ghost use Rattle.std.specs.Prelude.{◌≡◌, ◌++◌, IfOk, OnOk, Some, map, filter_map, option_map, option_to_list};
ghost use Rattle.std.specs.List.{AllByRecursion};
ghost use Rattle.tree_fs.specs.Calls.{HasCause};
ghost use Rattle.tree_fs.specs.Disk.{IsFile};
ghost use Rattle.tree_fs.specs.Story.{disk_of};
ghost use Rattle.desk_model.specs.Deployed.{won_spot, made_row};
ghost use Rattle.deploy_plan.specs.Told.{row_win, told_win_of, IsWin, IsGoodCase, HasStaged, win_seen, case_seen, told_row};

use crate::cases::PathCase;
use crate::lists::staged_win;
use crate::wins::Won;
use manifest_json::Row;
use plan_lists::push_some;
use stage_scan::digest_of;
use std::alloc::{AllocError, Global};
use tree_fs::{Tree, TreeError};

// The row of a winner, with the digest of its file.
fn made_row<T: Tree>(
    alloc: Global,
    tree: &mut T,
    win: Won,
    shadowed: bool,
) -> Result<Row, TreeError>
    requires win { IsWin (win_seen win) }
    requires staged { T.tells → IsFile (disk_of (T.story tree.old)) (won_spot (win_seen win)) }
    ensures win { IfOk result (λ row. row_win row ≡ win_seen win.entry) }
    ensures answer { T.tells →
        IfOk result (λ row. row ≡ made_row (disk_of (T.story tree.old)) (win_seen win.entry)
        shadowed) }
    ensures same { T.tells → T.story tree.new ≡ T.story tree.old }
    ensures cause { HasCause (T.faults tree.old) (T.faults tree.new) result }
{
    let place = staged_win(alloc, win)?;
    let digest = digest_of(tree, &place)?;
    Ok(Row {
        path: win.path.copy()?,
        mod_id: win.mod_id.copy()?,
        digest,
        shadowed,
        source: win.source.copy()?,
    })
}

// The row of a path, where a mod wins it.
fn row_of<T: Tree>(alloc: Global, tree: &mut T, case: PathCase) -> Result<Option<Row>, TreeError>
    requires good { IsGoodCase (case_seen case) }
    requires staged { T.tells → HasStaged (disk_of (T.story tree.old)) (case_seen case) }
    ensures win { IfOk result (λ row.
        option_map row_win row ≡ told_win_of (case_seen case.entry)) }
    ensures answer { T.tells →
        IfOk result (λ row. row ≡ told_row (disk_of (T.story tree.old)) (case_seen case.entry)) }
    ensures same { T.tells → T.story tree.new ≡ T.story tree.old }
    ensures cause { HasCause (T.faults tree.old) (T.faults tree.new) result }
{
    match case {
        PathCase::Leaves(_, _) => Ok(None),
        PathCase::Stays(row) => Ok(Some(row.copy()?)),
        PathCase::Turns(row, win) => Ok(Some(made_row(alloc, tree, win, row.shadowed)?)),
        PathCase::Comes(win) => Ok(Some(made_row(alloc, tree, win, false)?)),
        PathCase::Covers(win) => Ok(Some(made_row(alloc, tree, win, true)?)),
    }
}

/// The rows of the winners, in path order. The file of each row that isn't kept is read.
pub(crate) fn rows_of<T: Tree>(
    alloc: Global,
    tree: &mut T,
    cases: &[PathCase],
) -> Result<Vec<Row>, TreeError>
    requires good { AllByRecursion (λ c. IsGoodCase (case_seen c)) cases.now }
    requires staged { T.tells →
        AllByRecursion (λ c. HasStaged (disk_of (T.story tree.old)) (case_seen c)) cases.now }
    ensures wins { IfOk result (λ rows.
        map row_win rows.items ≡ filter_map told_win_of (map case_seen cases.now)) }
    ensures answer { T.tells →
        IfOk result (λ rows. rows.items ≡ filter_map (told_row (disk_of (T.story tree.old)))
        (map case_seen cases.now)) }
    ensures same { T.tells → T.story tree.new ≡ T.story tree.old }
    ensures cause { HasCause (T.faults tree.old) (T.faults tree.new) result }
{
    let mut rows = Vec::new(alloc);
    for case in cases {
        let row = row_of(alloc, tree, *case)?;
        push_some(&mut rows, row)?;
    }
    Ok(rows)
}
