// Where a settlement sets files aside.
ghost use Rattle.std.specs.Prelude.{◌≡◌, ◌↔◌, IsTrue, IfOk, IfErr, OnOk, map};
ghost use Rattle.fault_count.specs.Causes.{HasCause};
ghost use Rattle.tree_fs.specs.Spot.{spot_of};
ghost use Rattle.tree_fs.specs.Story.{disk_of};
ghost use Rattle.backup_keep.specs.Places.{aside_folder};
ghost use Rattle.backup_keep.specs.Asides.{IsNextAside};
ghost use Rattle.change_settle.specs.declared.error.SettleError.TheVariants.{Failed};
ghost use Rattle.purge_run.specs.Refusals.{HasAsideRoom};
ghost use Rattle.change_settle.specs.Steps.{IsAsideRefusal, SavesSome, IsSaving, step_task};
ghost use Rattle.change_settle.specs.Tasks.{deed_seen};

use crate::SettleError;
use crate::acts::Act;
use crate::walk::RowStep;
use backup_keep::next_aside;
use rel_paths::{RelPath, only_memory};
use std::alloc::{AllocError, Global};
use tree_fs::{Kind, Place, Root, Tree};

/// Where files are set aside.
#[derive(Clone, Copy)]
pub(crate) struct Aside {
    pub number: u32,
    /// Whether the folder `keep/aside` is there.
    pub is_there: bool,
}

// Whether a file of the row is set aside.
fn is_saving(act: Act) -> bool
    ensures { IsTrue result ↔ IsSaving (deed_seen act) }
{
    match act {
        Act::SetAside => true,
        Act::Import => true,
        Act::Revert => true,
        Act::LetGo => true,
        Act::Leave => false,
        Act::Accept => false,
        Act::LinkAgain => false,
        Act::StageAgain => false,
        Act::Drop => false,
    }
}

// Whether a file is set aside.
fn saves_some(steps: &[RowStep]) -> bool
    ensures { IsTrue result ↔ SavesSome (map step_task steps.now) }
{
    for step in steps {
        if is_saving(step.act) {
            return true;
        }
    }
    false
}

pub(crate) fn aside_folder(alloc: Global) -> Result<Place, AllocError>
    ensures { IfOk result (λ place. spot_of place ≡ aside_folder) }
{
    match RelPath::parse(alloc, "aside") {
        Ok(path) => Ok(Place {
            root: Root::Keep,
            rel: Some(path),
        }),
        Err(fault) => Err(only_memory(fault)),
    }
}

// The next number, and whether `keep/aside` is there.
fn look_aside<T: Tree>(alloc: Global, tree: &mut T) -> Result<Aside, SettleError>
    ensures next { T.tells →
        IfOk result (λ aside. IsNextAside (disk_of (T.story tree.old)) aside.number) }
    ensures room { T.tells → OnOk result (HasAsideRoom (disk_of (T.story tree.old))) }
    ensures there { T.tells →
        IfOk result (λ aside.
        aside.is_there ≡ (disk_of (T.story tree.old)).folders aside_folder) }
    ensures refused { T.tells → IfErr result (IsAsideRefusal (disk_of (T.story tree.old))) }
    ensures same { T.tells → T.story tree.new ≡ T.story tree.old }
    ensures cause { HasCause Failed (T.faults tree.old) (T.faults tree.new) result }
{
    let folder = aside_folder(alloc)?;
    match tree.kind(&folder)? {
        Kind::Absent => Ok(Aside {
            number: 1,
            is_there: false,
        }),
        Kind::Folder => {
            let number = next_aside(alloc, tree)?;
            Ok(Aside {
                number,
                is_there: true,
            })
        }
        Kind::File | Kind::Other => Err(SettleError::Blocked(folder)),
    }
}

/// Where files are set aside. `keep/aside` is looked at only where one is to be.
pub(crate) fn aside_for<T: Tree>(
    alloc: Global,
    tree: &mut T,
    steps: &[RowStep],
) -> Result<Aside, SettleError>
    ensures next { T.tells →
        IfOk result (λ aside. SavesSome (map step_task steps.now)
        → IsNextAside (disk_of (T.story tree.old)) aside.number) }
    ensures room { T.tells →
        OnOk result (SavesSome (map step_task steps.now)
        → HasAsideRoom (disk_of (T.story tree.old))) }
    ensures there { T.tells →
        IfOk result (λ aside. SavesSome (map step_task steps.now)
        → aside.is_there ≡ (disk_of (T.story tree.old)).folders aside_folder) }
    ensures refused { T.tells →
        IfErr result (λ e. SavesSome (map step_task steps.now)
        × IsAsideRefusal (disk_of (T.story tree.old)) e) }
    ensures same { T.tells → T.story tree.new ≡ T.story tree.old }
    ensures cause { HasCause Failed (T.faults tree.old) (T.faults tree.new) result }
{
    if saves_some(steps) {
        look_aside(alloc, tree)
    } else {
        Ok(Aside {
            number: 1,
            is_there: true,
        })
    }
}
