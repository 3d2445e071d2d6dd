// Changes by others. Each begins a new story.
ghost use Rattle.std.specs.Prelude.{◌≡◌, [], OnOk, OnErr};
ghost use Rattle.tree_mem.specs.MemStory.{mem_story};

use crate::error::WorldError;
use crate::needs::{need_file, need_free};
use crate::places::place_of;
use std::alloc::{AllocError, Global};
use tree_fs::Bytes;
use tree_mem::{MemTree, OutsideStep};

fn bytes_from(alloc: Global, bytes: &[u8]) -> Result<Bytes, AllocError> {
    Ok(Bytes::from_vec(Vec::from_clones(alloc, bytes)?))
}

/// Others put a new file there.
pub fn put_outside(
    alloc: Global,
    tree: &mut MemTree,
    at: &str,
    bytes: &[u8],
) -> Result<(), WorldError>
    ensures begins { OnOk result ((mem_story tree.new).ops ≡ []) }
    ensures err { OnErr result (mem_story tree.new ≡ mem_story tree.old) }
{
    let at = place_of(alloc, at)?;
    need_free(alloc, tree, &at)?;
    let bytes = bytes_from(alloc, bytes)?;
    tree.outside(alloc, &OutsideStep::PutFile { at, bytes })?;
    Ok(())
}

/// Others give a file other bytes, under all its names.
pub fn edit_outside(
    alloc: Global,
    tree: &mut MemTree,
    at: &str,
    bytes: &[u8],
) -> Result<(), WorldError>
    ensures begins { OnOk result ((mem_story tree.new).ops ≡ []) }
    ensures err { OnErr result (mem_story tree.new ≡ mem_story tree.old) }
{
    let at = place_of(alloc, at)?;
    need_file(tree, &at)?;
    let bytes = bytes_from(alloc, bytes)?;
    tree.outside(alloc, &OutsideStep::EditFile { at, bytes })?;
    Ok(())
}

/// Others take its name from a file.
pub fn remove_outside(alloc: Global, tree: &mut MemTree, at: &str) -> Result<(), WorldError>
    ensures begins { OnOk result ((mem_story tree.new).ops ≡ []) }
    ensures err { OnErr result (mem_story tree.new ≡ mem_story tree.old) }
{
    let at = place_of(alloc, at)?;
    need_file(tree, &at)?;
    tree.outside(alloc, &OutsideStep::Remove { at })?;
    Ok(())
}

/// Others give a file one more name.
pub fn link_outside(
    alloc: Global,
    tree: &mut MemTree,
    from: &str,
    to: &str,
) -> Result<(), WorldError>
    ensures begins { OnOk result ((mem_story tree.new).ops ≡ []) }
    ensures err { OnErr result (mem_story tree.new ≡ mem_story tree.old) }
{
    let from = place_of(alloc, from)?;
    let to = place_of(alloc, to)?;
    need_free(alloc, tree, &to)?;
    need_file(tree, &from)?;
    tree.outside(alloc, &OutsideStep::LinkFile { from, to })?;
    Ok(())
}
