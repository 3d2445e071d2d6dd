// Files put with the folders that they lie in.
ghost use Rattle.std.specs.Prelude.{◌≡◌, ◌≢◌, [], OnOk};
ghost use Rattle.tree_fs.specs.Calls.{CanPut};
ghost use Rattle.tree_fs.specs.Spot.{spot_of, parent};
ghost use Rattle.tree_fs.specs.Story.{disk_of};
ghost use Rattle.tree_mem.specs.Changed.{with_file, with_folder, settled_at};
ghost use Rattle.tree_mem.specs.MemStory.{mem_story, Begins, faults_of, KeepsPlan};

use std::alloc::{AllocError, Global};
use tree_fs::Place;
use tree_mem::MemTree;

/// Puts a folder, and in it a file.
pub(crate) fn put_with_folder(
    alloc: Global,
    tree: &mut MemTree,
    at: &Place,
    bytes: &[u8],
) -> Result<(), AllocError>
    requires below { (spot_of at.now).names ≢ [] }
    requires folder { CanPut (disk_of (mem_story tree.old)) (parent (spot_of at.now)) }
    requires file { let folder = parent (spot_of at.now) in
        let made = settled_at (with_folder (disk_of (mem_story tree.old)) folder) folder in
        CanPut made (spot_of at.now) }
    ensures begins { let folder = parent (spot_of at.now) in
        let made = settled_at (with_folder (disk_of (mem_story tree.old)) folder) folder in
        let put = with_file made (spot_of at.now) bytes.now in
        OnOk result (Begins (settled_at put (spot_of at.now)) tree.new) }
    ensures faults { faults_of tree.new ≡ faults_of tree.old }
    ensures plan { KeepsPlan tree.old tree.new }
{
    let Some(folder) = at.parent(alloc)? else {
        unreachable!()
    };
    tree.add_folder(alloc, &folder)?;
    tree.add_file(alloc, at, bytes)
}
