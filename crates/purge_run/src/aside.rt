// Where a purge sets files aside.
ghost use Rattle.std.specs.Prelude.{◌≡◌, ◌↔◌, IsTrue, IfOk, IfErr, OnOk, map};
ghost use Rattle.fault_count.specs.Causes.{HasCause};
ghost use Rattle.tree_fs.specs.Spot.{spot_of};
ghost use Rattle.tree_fs.specs.Story.{disk_of};
ghost use Rattle.backup_keep.specs.Places.{aside_folder};
ghost use Rattle.backup_keep.specs.Asides.{IsNextAside};
ghost use Rattle.purge_run.specs.declared.error.PurgeError.TheVariants.{Failed};
ghost use Rattle.purge_run.specs.declared.cases.At.TheVariants.{Over};
ghost use Rattle.purge_run.specs.Refusals.{HasAsideRoom};
ghost use Rattle.purge_run.specs.Told.{HasOver, case_seen};
ghost use Rattle.purge_run.specs.Looks.{RefusedByAside};

use crate::PurgeError;
use crate::cases::{At, RowCase};
use backup_keep::next_aside;
use rel_paths::{RelPath, only_memory};
use std::alloc::{AllocError, Global};
use tree_fs::{Kind, Place, Root, Tree};

/// Where files are set aside.
#[derive(Clone, Copy)]
pub(crate) struct Aside {
    pub number: u32,
    /// Whether the folder `keep/aside` is there.
    pub is_there: bool,
}

// Whether a file is to be set aside.
fn sets_aside(cases: &[RowCase]) -> bool
    ensures { IsTrue result ↔ HasOver (map case_seen cases.now) }
{
    for case in cases {
        if is_over(case.at) {
            return true;
        }
    }
    false
}

fn is_over(at: At) -> bool
    ensures { IsTrue result ↔ (at ≡ Over) }
{
    match at {
        At::Linked => false,
        At::Over => true,
        At::Bare => false,
    }
}

fn aside_folder(alloc: Global) -> Result<Place, AllocError>
    ensures { IfOk result (λ place. spot_of place ≡ aside_folder) }
{
    match RelPath::parse(alloc, "aside") {
        Ok(path) => Ok(Place {
            root: Root::Keep,
            rel: Some(path),
        }),
        Err(fault) => Err(only_memory(fault)),
    }
}

// The next number, and whether `keep/aside` is there.
fn look_aside<T: Tree>(alloc: Global, tree: &mut T) -> Result<Aside, PurgeError>
    ensures next { T.tells →
        IfOk result (λ aside. IsNextAside (disk_of (T.story tree.old)) aside.number) }
    ensures room { T.tells → OnOk result (HasAsideRoom (disk_of (T.story tree.old))) }
    ensures there { T.tells →
        IfOk result (λ aside.
        aside.is_there ≡ (disk_of (T.story tree.old)).folders aside_folder) }
    ensures refused { T.tells → IfErr result (RefusedByAside (disk_of (T.story tree.old))) }
    ensures same { T.tells → T.story tree.new ≡ T.story tree.old }
    ensures cause { HasCause Failed (T.faults tree.old) (T.faults tree.new) result }
{
    let folder = aside_folder(alloc)?;
    match tree.kind(&folder)? {
        Kind::Absent => Ok(Aside {
            number: 1,
            is_there: false,
        }),
        Kind::Folder => {
            let number = next_aside(alloc, tree)?;
            Ok(Aside {
                number,
                is_there: true,
            })
        }
        Kind::File | Kind::Other => Err(PurgeError::Blocked(folder)),
    }
}

/// Where files are set aside. `keep/aside` is looked at only where one is to be.
pub(crate) fn aside_for<T: Tree>(
    alloc: Global,
    tree: &mut T,
    cases: &[RowCase],
) -> Result<Aside, PurgeError>
    ensures next { T.tells →
        IfOk result (λ aside. HasOver (map case_seen cases.now)
        → IsNextAside (disk_of (T.story tree.old)) aside.number) }
    ensures room { T.tells →
        OnOk result (HasOver (map case_seen cases.now)
        → HasAsideRoom (disk_of (T.story tree.old))) }
    ensures there { T.tells →
        IfOk result (λ aside. HasOver (map case_seen cases.now)
        → aside.is_there ≡ (disk_of (T.story tree.old)).folders aside_folder) }
    ensures refused { T.tells →
        IfErr result (λ e. HasOver (map case_seen cases.now)
        × RefusedByAside (disk_of (T.story tree.old)) e) }
    ensures same { T.tells → T.story tree.new ≡ T.story tree.old }
    ensures cause { HasCause Failed (T.faults tree.old) (T.faults tree.new) result }
{
    if sets_aside(cases) {
        look_aside(alloc, tree)
    } else {
        Ok(Aside {
            number: 1,
            is_there: true,
        })
    }
}
