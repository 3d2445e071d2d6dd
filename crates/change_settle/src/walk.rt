// The walk over the rows: what is in the way of what is done with them.
ghost use Rattle.std.specs.Prelude.{◌≡◌, IfOk, IfErr, OnOk, map, filter_map, option_map, true};
ghost use Rattle.std.specs.List.{AllByRecursion};
ghost use Rattle.fault_count.specs.Causes.{HasCause};
ghost use Rattle.tree_fs.specs.Spot.{spot_of};
ghost use Rattle.tree_fs.specs.Disk.{kind_of};
ghost use Rattle.tree_fs.specs.Story.{disk_of};
ghost use Rattle.backup_keep.specs.Places.{backup_spot};
ghost use Rattle.manifest_json.specs.Sound.{IsRow};
ghost use Rattle.change_detect.specs.Refusals.{file_or_absent};
ghost use Rattle.move_plan.specs.Rising.{AreRising};
ghost use Rattle.plan_model.specs.Rows.{has_original, IsFileOrAbsent};
ghost use Rattle.change_settle.specs.declared.error.SettleError.TheVariants.{Failed};
ghost use Rattle.change_settle.specs.Refusals.{restored_spot, NeedsBackup};
ghost use Rattle.change_settle.specs.Tasks.{step_seen, task_row, task_seen, told, original_for, task_restored};
ghost use Rattle.change_settle.specs.Steps.{IsBackupBlocked, IsBlockedAt, IsFirstOf, IsInTaskWay, IsOpen};
ghost use Rattle.change_settle.specs.Steps.{IsTaskBlocked, NoneAboveTask, Refuses, TellsFor, step_task};

use crate::SettleError;
use crate::acts::Act;
use crate::places::outermost_above;
use crate::tasks::Task;
use backup_keep::backup_place;
use manifest_json::Row;
use plan_lists::{push_some, staged_row};
use std::alloc::{AllocError, Global};
use tree_fs::{Kind, Place, Tree};

/// A row, what is done with it, and whether its original is kept. That is looked at where the row
/// goes.
#[derive(Clone, Copy)]
pub(crate) struct RowStep<'a> {
    pub row: &'a Row,
    pub act: Act,
    pub has_original: bool,
}

// The place where a file is put back.
fn restored_place(alloc: Global, task: Task) -> Result<Option<Place>, AllocError>
    requires { IsRow (task_row task) }
    ensures { IfOk result (λ place.
        option_map spot_of place ≡ task_restored (task_seen task.entry)) }
{
    match task.act {
        Act::LinkAgain => Ok(Some(Place::game(alloc, &task.row.path)?)),
        Act::StageAgain => Ok(Some(staged_row(alloc, task.row)?)),
        Act::Leave => Ok(None),
        Act::SetAside => Ok(None),
        Act::Import => Ok(None),
        Act::Revert => Ok(None),
        Act::Accept => Ok(None),
        Act::LetGo => Ok(None),
        Act::Drop => Ok(None),
    }
}

/// The places where files are put back, in the order of the rows.
pub(crate) fn restored_places(alloc: Global, tasks: &[Task]) -> Result<Vec<Place>, AllocError>
    requires { AllByRecursion (λ t. IsRow (task_row t)) tasks.now }
    ensures { IfOk result (λ places.
        map spot_of places.items ≡ filter_map task_restored (map task_seen tasks.now)) }
{
    let mut places = Vec::new(alloc);
    for task in tasks {
        let place = restored_place(alloc, *task)?;
        push_some(&mut places, place)?;
    }
    Ok(places)
}

// Whether nothing is in the way above the place where a file is put back.
fn check_parents(alloc: Global, blocked: &[Place], task: Task) -> Result<(), SettleError>
    requires row { IsRow (task_row task) }
    requires order { AreRising blocked.now }
    ensures open { OnOk result (NoneAboveTask (map spot_of blocked.now) (task_seen task.entry)) }
    ensures refused { IfErr result
        (IsTaskBlocked (map spot_of blocked.now) (task_seen task.entry)) }
{
    let Some(place) = restored_place(alloc, task)? else {
        return Ok(());
    };
    match outermost_above(alloc, blocked, &place)? {
        None => Ok(()),
        Some(found) => Err(SettleError::Blocked(found)),
    }
}

// Whether a file stands at a place. A folder, or something odd, is in the way.
fn has_file<T: Tree>(tree: &mut T, place: Place) -> Result<bool, SettleError>
    ensures answer { T.tells →
        IfOk result (λ yes. kind_of (disk_of (T.story tree.old)) (spot_of place) ≡ file_or_absent
        yes) }
    ensures refused { T.tells →
        IfErr result (IsBlockedAt (disk_of (T.story tree.old)) (spot_of place)) }
    ensures same { T.tells → T.story tree.new ≡ T.story tree.old }
    ensures cause { HasCause Failed (T.faults tree.old) (T.faults tree.new) result }
{
    match tree.kind(&place)? {
        Kind::File => Ok(true),
        Kind::Absent => Ok(false),
        Kind::Folder | Kind::Other => Err(SettleError::Blocked(place)),
    }
}

// Whether the original of a row is at its backup place.
fn has_original<T: Tree>(alloc: Global, tree: &mut T, row: &Row) -> Result<bool, SettleError>
    requires { IsRow row.now }
    ensures answer { T.tells →
        IfOk result (λ yes. yes ≡ has_original (disk_of (T.story tree.old)) row.now) }
    ensures open { T.tells →
        OnOk result (row.now.shadowed ≡ true
        → IsFileOrAbsent (disk_of (T.story tree.old)) (backup_spot row.now.path)) }
    ensures refused { T.tells →
        IfErr result (IsBackupBlocked (disk_of (T.story tree.old)) row.now) }
    ensures same { T.tells → T.story tree.new ≡ T.story tree.old }
    ensures cause { HasCause Failed (T.faults tree.old) (T.faults tree.new) result }
{
    if !row.shadowed {
        return Ok(false);
    }
    let place = backup_place(alloc, &row.path)?;
    has_file(tree, place)
}

// The same where the row goes. Elsewhere it isn't looked at.
fn kept_original<T: Tree>(alloc: Global, tree: &mut T, task: Task) -> Result<bool, SettleError>
    requires { IsRow (task_row task) }
    ensures answer { T.tells →
        IfOk result (λ yes. yes ≡ original_for (disk_of (T.story tree.old))
        (task_row task.entry) (task_seen task.entry).1) }
    ensures open { T.tells →
        OnOk result (NeedsBackup (task_row task.entry) (task_seen task.entry).1
        → IsFileOrAbsent (disk_of (T.story tree.old)) (backup_spot (task_row task.entry).path)) }
    ensures refused { T.tells →
        IfErr result (Refuses
        (IsInTaskWay (disk_of (T.story tree.old)) (task_seen task.entry))) }
    ensures same { T.tells → T.story tree.new ≡ T.story tree.old }
    ensures cause { HasCause Failed (T.faults tree.old) (T.faults tree.new) result }
{
    match task.act {
        Act::LetGo => has_original(alloc, tree, task.row),
        Act::Drop => has_original(alloc, tree, task.row),
        Act::Leave => Ok(false),
        Act::SetAside => Ok(false),
        Act::Import => Ok(false),
        Act::Revert => Ok(false),
        Act::Accept => Ok(false),
        Act::LinkAgain => Ok(false),
        Act::StageAgain => Ok(false),
    }
}

// What is found of a row. `blocked` are the folders above what is put back at which something else
// stands.
fn step_of<'a, T: Tree>(
    alloc: Global,
    tree: &mut T,
    blocked: &[Place],
    task: Task<'a>,
) -> Result<RowStep<'a>, SettleError>
    requires row { IsRow (task_row task) }
    requires order { AreRising blocked.now }
    requires told { T.tells →
        TellsFor (disk_of (T.story tree.old)) (map spot_of blocked.now) (task_seen task) }
    ensures task { IfOk result (λ step. step_task step ≡ task_seen task.entry) }
    ensures answer { T.tells →
        IfOk result (λ step. step_seen step ≡ told (disk_of (T.story tree.old))
        (task_seen task.entry)) }
    ensures open { T.tells →
        OnOk result (IsOpen (disk_of (T.story tree.old)) (task_seen task.entry)) }
    ensures refused { T.tells →
        IfErr result (Refuses
        (IsInTaskWay (disk_of (T.story tree.old)) (task_seen task.entry))) }
    ensures same { T.tells → T.story tree.new ≡ T.story tree.old }
    ensures cause { HasCause Failed (T.faults tree.old) (T.faults tree.new) result }
{
    check_parents(alloc, blocked, task)?;
    let has_original = kept_original(alloc, tree, task)?;
    Ok(RowStep {
        row: task.row,
        act: task.act,
        has_original,
    })
}

/// What is found of each row.
pub(crate) fn steps<'a, T: Tree>(
    alloc: Global,
    tree: &mut T,
    blocked: &[Place],
    tasks: &[Task<'a>],
) -> Result<Vec<RowStep<'a>>, SettleError>
    requires rows { AllByRecursion (λ t. IsRow (task_row t)) tasks.now }
    requires order { AreRising blocked.now }
    requires told { T.tells →
        AllByRecursion (TellsFor (disk_of (T.story tree.old)) (map spot_of blocked.now))
        (map task_seen tasks.now) }
    ensures tasks { IfOk result (λ steps. map step_task steps.items ≡ map task_seen tasks.now) }
    ensures answer { T.tells →
        IfOk result (λ steps. map step_seen steps.items ≡ map (told (disk_of (T.story tree.old)))
        (map task_seen tasks.now)) }
    ensures open { T.tells →
        OnOk result (AllByRecursion (IsOpen (disk_of (T.story tree.old)))
        (map task_seen tasks.now)) }
    ensures refused { T.tells →
        IfErr result (Refuses
        (IsFirstOf (disk_of (T.story tree.old)) (map task_seen tasks.now))) }
    ensures same { T.tells → T.story tree.new ≡ T.story tree.old }
    ensures cause { HasCause Failed (T.faults tree.old) (T.faults tree.new) result }
{
    let mut steps = Vec::with_capacity(alloc, tasks.len())?;
    for task in tasks {
        let step = step_of(alloc, tree, blocked, *task)?;
        steps.push(step)?;
    }
    Ok(steps)
}
