// What stands where.
ghost use Rattle.std.specs.Prelude.{◌≡◌};
ghost use Rattle.tree_mem.specs.MemStory.{mem_story};

use crate::error::WorldError;
use crate::needs::{kind_at, need_file, need_folder};
use crate::places::place_of;
use std::alloc::Global;
use tree_fs::{Entry, Kind, Tree};
use tree_mem::MemTree;

// How many bytes are read at most.
const MOST_BYTES: u32 = 1_048_576;

/// What stands at a place.
pub fn kind_of(alloc: Global, tree: &mut MemTree, at: &str) -> Result<Kind, WorldError>
    ensures { mem_story tree.new ≡ mem_story tree.old }
{
    let at = place_of(alloc, at)?;
    kind_at(tree, &at)
}

/// The bytes of a file, of which the first 1,048,576 are read.
pub fn bytes_of(alloc: Global, tree: &mut MemTree, at: &str) -> Result<Vec<u8>, WorldError>
    ensures { mem_story tree.new ≡ mem_story tree.old }
{
    let at = place_of(alloc, at)?;
    need_file(tree, &at)?;
    Ok(tree.read_part(&at, 0, MOST_BYTES)?)
}

/// How many bytes a file has.
pub fn size_of(alloc: Global, tree: &mut MemTree, at: &str) -> Result<u64, WorldError>
    ensures { mem_story tree.new ≡ mem_story tree.old }
{
    let at = place_of(alloc, at)?;
    need_file(tree, &at)?;
    Ok(tree.size(&at)?)
}

/// The entries of a folder.
pub fn listed(alloc: Global, tree: &mut MemTree, at: &str) -> Result<Vec<Entry>, WorldError>
    ensures { mem_story tree.new ≡ mem_story tree.old }
{
    let at = place_of(alloc, at)?;
    need_folder(tree, &at)?;
    Ok(tree.list(&at)?)
}

/// Whether two places are names of one file.
pub fn is_same_file(alloc: Global, tree: &mut MemTree, a: &str, b: &str) -> Result<bool, WorldError>
    ensures { mem_story tree.new ≡ mem_story tree.old }
{
    let a = place_of(alloc, a)?;
    let b = place_of(alloc, b)?;
    need_file(tree, &a)?;
    need_file(tree, &b)?;
    Ok(tree.same(&a, &b)?)
}
