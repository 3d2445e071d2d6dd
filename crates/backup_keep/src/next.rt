// The next number below the aside folder.
ghost use Rattle.std.specs.Prelude.{◌≡◌, IfOk, IfErr, OnOk};
ghost use Rattle.tree_fs.specs.Spot.{spot_of};
ghost use Rattle.tree_fs.specs.declared.name.Kind.TheVariants.{Folder};
ghost use Rattle.tree_fs.specs.Disk.{kind_of};
ghost use Rattle.tree_fs.specs.Story.{disk_of};
ghost use Rattle.backup_keep.specs.Places.{aside_folder};
ghost use Rattle.backup_keep.specs.Asides.{IsNextAside, IsAsideOpen};
ghost use Rattle.fault_count.specs.Causes.{HasCause};
ghost use Rattle.backup_keep.specs.declared.error.KeepError.TheVariants.{Failed};
ghost use Rattle.backup_keep.specs.Refusals.{IsKeepRefusal};

use crate::KeepError;
use crate::number::greatest;
use rel_paths::{RelPath, only_memory};
use std::alloc::{AllocError, Global};
use tree_fs::{Kind, Place, Root, Tree};

fn aside_folder(alloc: Global) -> Result<Place, AllocError>
    ensures { IfOk result (λ place. spot_of place ≡ aside_folder) }
{
    match RelPath::parse(alloc, "aside") {
        Ok(path) => Ok(Place {
            root: Root::Keep,
            rel: Some(path),
        }),
        Err(fault) => Err(only_memory(fault)),
    }
}

/// The number for what is set aside next: one more than the greatest entry below `keep/aside` whose
/// name is a number from 1 to 4294967295 without leading zeros, or 1 where there is none. `AsideFull`
/// where 4294967295 is there; `Blocked` where `keep/aside` is a file or something odd.
pub fn next_aside<T: Tree>(alloc: Global, tree: &mut T) -> Result<u32, KeepError>
    ensures next { T.tells → IfOk result (IsNextAside (disk_of (T.story tree.old))) }
    ensures open { T.tells → OnOk result (IsAsideOpen (disk_of (T.story tree.old))) }
    ensures refused { T.tells → IfErr result (IsKeepRefusal (disk_of (T.story tree.old))) }
    ensures same { T.tells → T.story tree.new ≡ T.story tree.old }
    ensures cause { HasCause Failed (T.faults tree.old) (T.faults tree.new) result }
{
    let folder = aside_folder(alloc)?;
    match tree.kind(&folder)? {
        Kind::Absent => Ok(1),
        Kind::Folder => number_after(tree, &folder),
        Kind::File | Kind::Other => Err(KeepError::Blocked(folder)),
    }
}

// The next number where the aside folder is there.
fn number_after<T: Tree>(tree: &mut T, folder: &Place) -> Result<u32, KeepError>
    requires folder { spot_of folder.now ≡ aside_folder }
    requires told { T.tells → kind_of (disk_of (T.story tree.old)) aside_folder ≡ Folder }
    ensures next { T.tells → IfOk result (IsNextAside (disk_of (T.story tree.old))) }
    ensures refused { T.tells → IfErr result (IsKeepRefusal (disk_of (T.story tree.old))) }
    ensures same { T.tells → T.story tree.new ≡ T.story tree.old }
    ensures cause { HasCause Failed (T.faults tree.old) (T.faults tree.new) result }
{
    let entries = tree.list(folder)?;
    let greatest = greatest(&entries);
    if greatest == u32::MAX {
        return Err(KeepError::AsideFull);
    }
    Ok(greatest + 1)
}
