// What has to stand at a place, so that a call may be made.
ghost use Rattle.std.specs.Prelude.{◌≡◌, ◌≢◌, ◌⊎◌, [], true, false, IfOk, OnOk};
ghost use Rattle.tree_fs.specs.Calls.{CanPut, CanRemoveFolder, IsFolder};
ghost use Rattle.tree_fs.specs.declared.name.Kind.TheVariants.{Absent};
ghost use Rattle.tree_fs.specs.Disk.{IsFile, kind_of, none};
ghost use Rattle.tree_fs.specs.Listing.{IsListing};
ghost use Rattle.tree_fs.specs.Spot.{spot_of, parent};
ghost use Rattle.tree_fs.specs.Story.{disk_of};
ghost use Rattle.tree_mem.specs.MemStory.{mem_story};

use crate::error::WorldError;
use std::alloc::Global;
use tree_fs::{Kind, Place, Tree};
use tree_mem::MemTree;

/// What stands at a place.
pub fn kind_at(tree: &mut MemTree, at: &Place) -> Result<Kind, WorldError>
    ensures answer { IfOk result (λ kind. kind ≡ kind_of (disk_of (mem_story tree.new)) (spot_of at.now)) }
    ensures same { mem_story tree.new ≡ mem_story tree.old }
{
    Ok(tree.kind(at)?)
}

/// Fails unless a file is there.
pub fn need_file(tree: &mut MemTree, at: &Place) -> Result<(), WorldError>
    ensures file { OnOk result (IsFile (disk_of (mem_story tree.new)) (spot_of at.now)) }
    ensures same { mem_story tree.new ≡ mem_story tree.old }
{
    match kind_at(tree, at)? {
        Kind::File => Ok(()),
        _ => Err(WorldError::NoFile),
    }
}

/// Fails unless a folder is there.
pub fn need_folder(tree: &mut MemTree, at: &Place) -> Result<(), WorldError>
    ensures folder { OnOk result (IsFolder (disk_of (mem_story tree.new)) (spot_of at.now)) }
    ensures same { mem_story tree.new ≡ mem_story tree.old }
{
    match kind_at(tree, at)? {
        Kind::Folder => Ok(()),
        _ => Err(WorldError::NoFolder),
    }
}

/// Fails unless nothing is there.
pub fn need_absent(tree: &mut MemTree, at: &Place) -> Result<(), WorldError>
    ensures absent { OnOk result (kind_of (disk_of (mem_story tree.new)) (spot_of at.now) ≡ Absent) }
    ensures same { mem_story tree.new ≡ mem_story tree.old }
{
    match kind_at(tree, at)? {
        Kind::Absent => Ok(()),
        _ => Err(WorldError::Taken),
    }
}

// Fails unless the place lies in a folder.
fn need_folder_above(alloc: Global, tree: &mut MemTree, at: &Place) -> Result<(), WorldError>
    ensures folder { OnOk result (IsFolder (disk_of (mem_story tree.new)) (parent (spot_of at.now))) }
    ensures same { mem_story tree.new ≡ mem_story tree.old }
{
    match at.parent(alloc)? {
        Some(above) => need_folder(tree, &above),
        None => Err(WorldError::Root),
    }
}

/// Fails unless something new can come there.
pub fn need_free(alloc: Global, tree: &mut MemTree, at: &Place) -> Result<(), WorldError>
    ensures free { OnOk result (CanPut (disk_of (mem_story tree.new)) (spot_of at.now)) }
    ensures same { mem_story tree.new ≡ mem_story tree.old }
{
    need_folder_above(alloc, tree, at)?;
    need_absent(tree, at)
}

/// Fails unless a file is there, or something new can come there.
pub fn need_target(alloc: Global, tree: &mut MemTree, at: &Place) -> Result<(), WorldError>
    ensures target { let d = disk_of (mem_story tree.new) in
        OnOk result (IsFile d (spot_of at.now) ⊎ (d.now (spot_of at.now) ≡ none)) }
    ensures no_folder { let d = disk_of (mem_story tree.new) in
        OnOk result (d.folders (spot_of at.now) ≡ false) }
    ensures in_folder { let d = disk_of (mem_story tree.new) in
        OnOk result (d.folders (parent (spot_of at.now)) ≡ true) }
    ensures same { mem_story tree.new ≡ mem_story tree.old }
{
    need_folder_above(alloc, tree, at)?;
    match kind_at(tree, at)? {
        Kind::File => Ok(()),
        Kind::Absent => Ok(()),
        _ => Err(WorldError::Taken),
    }
}

// Fails where a folder has entries.
fn need_empty(tree: &mut MemTree, at: &Place) -> Result<(), WorldError>
    requires { IsFolder (disk_of (mem_story tree.old)) (spot_of at.now) }
    ensures empty { OnOk result (IsListing (disk_of (mem_story tree.new)) (spot_of at.now) []) }
    ensures same { mem_story tree.new ≡ mem_story tree.old }
{
    let entries = tree.list(at)?;
    match entries.is_empty() {
        true => Ok(()),
        false => Err(WorldError::NotEmpty),
    }
}

// Fails where the place is a root.
fn need_no_root(at: &Place) -> Result<(), WorldError>
    ensures { OnOk result ((spot_of at.now).names ≢ []) }
{
    match &at.rel {
        Some(_) => Ok(()),
        None => Err(WorldError::Root),
    }
}

/// Syncs a folder, which can be removed then. Fails where it has entries or is a root.
pub fn need_removable(tree: &mut MemTree, at: &Place) -> Result<(), WorldError>
    ensures { OnOk result (CanRemoveFolder (disk_of (mem_story tree.new)) (spot_of at.now)) }
{
    need_no_root(at)?;
    need_folder(tree, at)?;
    need_empty(tree, at)?;
    match tree.sync_folder(at) {
        Ok(()) => Ok(()),
        Err(error) => Err(WorldError::Call(error)),
    }
}
