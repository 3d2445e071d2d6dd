// What becomes of each path.
ghost use Rattle.std.specs.Prelude.{◌≡◌, IfOk, IfErr, OnOk, map, true, [], None};
ghost use Rattle.std.specs.List.{AllByRecursion};
ghost use Rattle.fault_count.specs.Causes.{HasCause};
ghost use Rattle.tree_fs.specs.Spot.{spot_of, parent};
ghost use Rattle.tree_fs.specs.Places.{game_spot};
ghost use Rattle.tree_fs.specs.Disk.{kind_of};
ghost use Rattle.tree_fs.specs.Story.{disk_of};
ghost use Rattle.tree_fs.specs.declared.name.Kind.TheVariants.{Absent};
ghost use Rattle.backup_keep.specs.Places.{backup_spot};
ghost use Rattle.manifest_json.specs.Sound.{IsRow};
ghost use Rattle.change_detect.specs.Refusals.{file_or_absent};
ghost use Rattle.plan_model.specs.Rows.{has_original, IsFileOrAbsent};
ghost use Rattle.deploy_plan.specs.declared.error.PlanError.TheVariants.{Failed};
ghost use Rattle.deploy_plan.specs.Walk.{row_alone, win_alone};
ghost use Rattle.deploy_plan.specs.Refusals.{HasOpenParents};
ghost use Rattle.deploy_plan.specs.Steps.{Refused, IsAtPlace, IsBackupTaken, IsStepObstacle, IsFreeStep, IsFirstInTheWay};
ghost use Rattle.deploy_plan.specs.Parents.{AreSeen, LooksUpTo};
ghost use Rattle.deploy_plan.specs.Missing.{AreNoted, LooksFor};
ghost use Rattle.rel_paths.specs.Names.{IsFreePath};
ghost use Rattle.deploy_plan.specs.Told.{IsGoodCase, IsCaseOf, told_win_of, step_win, IsWin, IsGoodStep, win_seen};
ghost use Rattle.deploy_plan.specs.Told.{step_seen, case_seen, told};

use crate::PlanError;
use crate::parents::Parents;
use crate::steps::WalkStep;
use crate::wins::Won;
use backup_keep::backup_place;
use manifest_json::Row;
use std::alloc::Global;
use tree_fs::{Kind, Place, Tree};

/// What becomes of a path.
#[derive(Clone, Copy)]
pub(crate) enum PathCase<'a> {
    /// No mod wins the path of the row. It is told whether its original is at the backup place.
    Leaves(&'a Row, bool),
    /// The row's mod still wins, from the same source.
    Stays(&'a Row),
    /// Another mod wins the path of the row, or another source.
    Turns(&'a Row, Won<'a>),
    /// Nothing stands at the path of the winner.
    Comes(Won<'a>),
    /// A file of the game stands at the path of the winner.
    Covers(Won<'a>),
}

// Whether a file stands at a place. A folder, or something odd, is in the way.
fn has_file<T: Tree>(tree: &mut T, place: Place) -> Result<bool, PlanError>
    ensures answer { T.tells →
        IfOk result (λ yes. kind_of (disk_of (T.story tree.old)) (spot_of place) ≡ file_or_absent
        yes) }
    ensures refused { T.tells →
        IfErr result (Refused (IsAtPlace (disk_of (T.story tree.old)) (spot_of place))) }
    ensures same { T.tells → T.story tree.new ≡ T.story tree.old }
    ensures cause { HasCause Failed (T.faults tree.old) (T.faults tree.new) result }
{
    match tree.kind(&place)? {
        Kind::File => Ok(true),
        Kind::Absent => Ok(false),
        Kind::Folder | Kind::Other => Err(PlanError::Blocked(place)),
    }
}

// Whether the original of a row that loses its path is at its backup place.
fn has_original<T: Tree>(alloc: Global, tree: &mut T, row: &Row) -> Result<bool, PlanError>
    requires { IsRow row.now }
    ensures answer { T.tells →
        IfOk result (λ yes. yes ≡ has_original (disk_of (T.story tree.old)) row.now) }
    ensures free { T.tells →
        OnOk result (IsFreeStep (disk_of (T.story tree.old)) (row_alone row.now)) }
    ensures refused { T.tells →
        IfErr result (Refused (IsStepObstacle (disk_of (T.story tree.old)) (row_alone row.now))) }
    ensures same { T.tells → T.story tree.new ≡ T.story tree.old }
    ensures cause { HasCause Failed (T.faults tree.old) (T.faults tree.new) result }
{
    if !row.shadowed {
        return Ok(false);
    }
    let place = backup_place(alloc, &row.path)?;
    has_file(tree, place)
}

// Whether a file can be saved to the backup place of this winner's path.
fn check_backup<T: Tree>(alloc: Global, tree: &mut T, win: Won) -> Result<(), PlanError>
    requires { IsWin (win_seen win) }
    ensures free { T.tells →
        OnOk result (kind_of (disk_of (T.story tree.old)) (backup_spot win.entry.path.now)
        ≡ Absent) }
    ensures refused { T.tells →
        IfErr result (Refused (IsBackupTaken (disk_of (T.story tree.old)) win.entry.path.now)) }
    ensures same { T.tells → T.story tree.new ≡ T.story tree.old }
    ensures cause { HasCause Failed (T.faults tree.old) (T.faults tree.new) result }
{
    let place = backup_place(alloc, win.path)?;
    if tree.kind(&place)? == Kind::Absent {
        Ok(())
    } else {
        Err(PlanError::BackupTaken(win.path.copy()?))
    }
}

// The case of a winner whose folder is there.
fn case_inside<'a, T: Tree>(
    alloc: Global,
    tree: &mut T,
    win: Won<'a>,
) -> Result<PathCase<'a>, PlanError>
    requires win { IsWin (win_seen win) }
    requires parents { T.tells →
        HasOpenParents (disk_of (T.story tree.old)) (game_spot win.path.now) }
    ensures good { IfOk result (λ case. IsCaseOf (win_alone (win_seen win.entry)) (case_seen case)) }
    ensures answer { T.tells →
        IfOk result (λ case. case_seen case ≡ told (disk_of (T.story tree.old))
        (win_alone (win_seen win.entry))) }
    ensures free { T.tells →
        OnOk result (IsFreeStep (disk_of (T.story tree.old)) (win_alone (win_seen win.entry))) }
    ensures refused { T.tells →
        IfErr result (Refused
        (IsStepObstacle (disk_of (T.story tree.old)) (win_alone (win_seen win.entry)))) }
    ensures same { T.tells → T.story tree.new ≡ T.story tree.old }
    ensures cause { HasCause Failed (T.faults tree.old) (T.faults tree.new) result }
{
    let place = Place::game(alloc, win.path)?;
    if has_file(tree, place)? {
        check_backup(alloc, tree, win)?;
        Ok(PathCase::Covers(win))
    } else {
        Ok(PathCase::Comes(win))
    }
}

// The case of a winner without a row. Below a folder that is missing nothing is looked at.
fn case_of_win<'a, T: Tree>(
    alloc: Global,
    tree: &mut T,
    parents: &mut Parents,
    win: Won<'a>,
) -> Result<PathCase<'a>, PlanError>
    requires win { IsWin (win_seen win) }
    requires seen { T.tells → AreSeen (disk_of (T.story tree.old)) parents.old }
    ensures good { IfOk result (λ case. IsCaseOf (win_alone (win_seen win.entry)) (case_seen case)) }
    ensures answer { T.tells →
        IfOk result (λ case. case_seen case ≡ told (disk_of (T.story tree.old))
        (win_alone (win_seen win.entry))) }
    ensures free { T.tells →
        OnOk result (IsFreeStep (disk_of (T.story tree.old)) (win_alone (win_seen win.entry))) }
    ensures looks { T.tells →
        OnOk result (LooksUpTo (disk_of (T.story tree.old)) (parent (game_spot win.entry.path.now))
        parents.old parents.new) }
    ensures missing { OnOk result (AllByRecursion IsFreePath parents.old.missing.items
        → AllByRecursion IsFreePath parents.new.missing.items) }
    ensures refused { T.tells →
        IfErr result (Refused
        (IsStepObstacle (disk_of (T.story tree.old)) (win_alone (win_seen win.entry)))) }
    ensures same { T.tells → T.story tree.new ≡ T.story tree.old }
    ensures cause { HasCause Failed (T.faults tree.old) (T.faults tree.new) result }
{
    if parents.has_parents(alloc, tree, win.path)? {
        case_inside(alloc, tree, win)
    } else {
        Ok(PathCase::Comes(win))
    }
}

fn case_of<'a, T: Tree>(
    alloc: Global,
    tree: &mut T,
    parents: &mut Parents,
    step: WalkStep<'a>,
) -> Result<PathCase<'a>, PlanError>
    requires good { IsGoodStep (step_seen step) }
    requires seen { T.tells → AreSeen (disk_of (T.story tree.old)) parents.old }
    ensures good { IfOk result (λ case. IsCaseOf (step_seen step.entry) (case_seen case)) }
    ensures answer { T.tells →
        IfOk result (λ case. case_seen case ≡ told (disk_of (T.story tree.old))
        (step_seen step.entry)) }
    ensures free { T.tells →
        OnOk result (IsFreeStep (disk_of (T.story tree.old)) (step_seen step.entry)) }
    ensures looks { T.tells →
        OnOk result (LooksFor (disk_of (T.story tree.old)) (step_seen step.entry) parents.old
        parents.new) }
    ensures missing { OnOk result (AllByRecursion IsFreePath parents.old.missing.items
        → AllByRecursion IsFreePath parents.new.missing.items) }
    ensures refused { T.tells →
        IfErr result (Refused
        (IsStepObstacle (disk_of (T.story tree.old)) (step_seen step.entry))) }
    ensures same { T.tells → T.story tree.new ≡ T.story tree.old }
    ensures cause { HasCause Failed (T.faults tree.old) (T.faults tree.new) result }
{
    match step {
        WalkStep::RowAlone(row) => Ok(PathCase::Leaves(row, has_original(alloc, tree, row)?)),
        WalkStep::Both(row, win) => {
            if row.mod_id == *win.mod_id && row.source == *win.source {
                Ok(PathCase::Stays(row))
            } else {
                Ok(PathCase::Turns(row, win))
            }
        }
        WalkStep::WinAlone(win) => case_of_win(alloc, tree, parents, win),
    }
}

/// The case of each step.
pub(crate) fn cases<'a, T: Tree>(
    alloc: Global,
    tree: &mut T,
    parents: &mut Parents,
    steps: &[WalkStep<'a>],
) -> Result<Vec<PathCase<'a>>, PlanError>
    requires good { AllByRecursion (λ step. IsGoodStep (step_seen step)) steps.now }
    requires above { parents.old.above.items ≡ [] }
    requires missing { parents.old.missing.items ≡ [] }
    ensures good { IfOk result (λ cases.
        AllByRecursion (λ c. IsGoodCase (case_seen c)) cases.items) }
    ensures wins { IfOk result (λ cases.
        map (λ c. told_win_of (case_seen c)) cases.items ≡ map step_win (map step_seen steps.now)) }
    ensures answer { T.tells →
        IfOk result (λ cases. map case_seen cases.items ≡ map (told (disk_of (T.story tree.old)))
        (map step_seen steps.now)) }
    ensures free { T.tells →
        OnOk result (AllByRecursion (IsFreeStep (disk_of (T.story tree.old)))
        (map step_seen steps.now)) }
    ensures noted { T.tells →
        OnOk result (AreNoted (disk_of (T.story tree.old)) (map step_seen steps.now)
        parents.new.missing.items) }
    ensures missing { OnOk result (AllByRecursion IsFreePath parents.new.missing.items) }
    ensures refused { T.tells →
        IfErr result (Refused
        (IsFirstInTheWay (disk_of (T.story tree.old)) (map step_seen steps.now))) }
    ensures same { T.tells → T.story tree.new ≡ T.story tree.old }
    ensures cause { HasCause Failed (T.faults tree.old) (T.faults tree.new) result }
{
    let mut cases = Vec::with_capacity(alloc, steps.len())?;
    for step in steps {
        let case = case_of(alloc, tree, parents, *step)?;
        cases.push(case)?;
    }
    Ok(cases)
}
