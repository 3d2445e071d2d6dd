// Syncs of folders.
ghost use Rattle.std.specs.Prelude.{◌≡◌, OnOk, length};
ghost use Rattle.std.specs.List.{Contains};
ghost use Rattle.fault_count.specs.Causes.{HasCause};
ghost use Rattle.tree_fs.specs.declared.place.Place.{Place};
ghost use Rattle.tree_fs.specs.declared.tree.TreeError.TheVariants.{Failed};
ghost use Rattle.tree_fs.specs.Spot.{spot_of};
ghost use Rattle.tree_fs.specs.Story.{disk_of};
ghost use Rattle.tree_fs.specs.Calls.{IsFolder};
ghost use Rattle.tree_fs.specs.Frames.{Syncs, EntriesSettled};
ghost use Rattle.plan_exec.specs.Counts.{Runs};

use tree_fs::{Kind, Place, Tree, TreeError};

// Syncs a folder, and leaves out a place that is none.
fn sync_one<T: Tree>(tree: &mut T, folder: &Place) -> Result<(), TreeError>
    ensures stops { T.tells →
        Runs 1 (Syncs (disk_of (T.story tree.old))) (T.story tree.old) (T.story tree.new) }
    ensures done { T.tells →
        OnOk result (IsFolder (disk_of (T.story tree.old)) (spot_of folder.now) → EntriesSettled
        (disk_of (T.story tree.new)) (spot_of folder.now)) }
    ensures cause { HasCause Failed (T.faults tree.old) (T.faults tree.new) result }
{
    if tree.kind(folder)? == Kind::Folder {
        return tree.sync_folder(folder);
    }
    Ok(())
}

// Syncs folders, each once. At Ok nothing is pending in them.
pub(crate) fn sync_all<T: Tree>(tree: &mut T, folders: &[Place]) -> Result<(), TreeError>
    ensures stops { T.tells →
        Runs (length folders.now) (Syncs (disk_of (T.story tree.old))) (T.story tree.old)
        (T.story tree.new) }
    ensures done { T.tells →
        OnOk result ((p : Place) → Contains folders.now p → IsFolder (disk_of (T.story tree.old))
        (spot_of p) → EntriesSettled (disk_of (T.story tree.new)) (spot_of p)) }
    ensures cause { HasCause Failed (T.faults tree.old) (T.faults tree.new) result }
{
    for folder in folders {
        sync_one(tree, folder)?;
    }
    Ok(())
}
