// Calls of the trait by texts, each where it can be made.
ghost use Rattle.std.specs.Prelude.{◌≡◌};
ghost use Rattle.tree_mem.specs.MemStory.{mem_story};

use crate::error::WorldError;
use crate::needs::{need_file, need_folder, need_free, need_removable, need_target};
use crate::places::place_of;
use std::alloc::{AllocError, Global};
use tree_fs::{Tree, TreeError};
use tree_mem::{FailAt, MemTree};

/// The call with this number from now on fails, and does its step first where that is asked.
pub fn fail_call(alloc: Global, tree: &mut MemTree, call: u64, done: bool) -> Result<(), AllocError>
    ensures { mem_story tree.new ≡ mem_story tree.old }
{
    let fails = vec![in alloc; FailAt { call, done }]?;
    tree.fail_at(fails);
    Ok(())
}

// The answer of a call that was made.
fn answered(answer: Result<(), TreeError>) -> Result<(), WorldError> {
    match answer {
        Ok(()) => Ok(()),
        Err(error) => Err(WorldError::Call(error)),
    }
}

/// Gives a file a second name.
pub fn link(alloc: Global, tree: &mut MemTree, from: &str, to: &str) -> Result<(), WorldError> {
    let from = place_of(alloc, from)?;
    let to = place_of(alloc, to)?;
    need_free(alloc, tree, &to)?;
    need_file(tree, &from)?;
    answered(tree.link(&from, &to))
}

/// Takes its name from a file.
pub fn unlink(alloc: Global, tree: &mut MemTree, at: &str) -> Result<(), WorldError> {
    let at = place_of(alloc, at)?;
    need_file(tree, &at)?;
    answered(tree.unlink(&at))
}

/// Gives a file the name `to`, in place of what had it.
pub fn rename(alloc: Global, tree: &mut MemTree, from: &str, to: &str) -> Result<(), WorldError> {
    let from = place_of(alloc, from)?;
    let to = place_of(alloc, to)?;
    need_target(alloc, tree, &to)?;
    need_file(tree, &from)?;
    answered(tree.rename(&from, &to))
}

/// Makes a file with these bytes.
pub fn put_new(
    alloc: Global,
    tree: &mut MemTree,
    at: &str,
    bytes: &[u8],
) -> Result<(), WorldError> {
    let at = place_of(alloc, at)?;
    need_free(alloc, tree, &at)?;
    answered(tree.put_new(&at, bytes))
}

/// Makes a folder.
pub fn make_folder(alloc: Global, tree: &mut MemTree, at: &str) -> Result<(), WorldError> {
    let at = place_of(alloc, at)?;
    need_free(alloc, tree, &at)?;
    answered(tree.make_folder(&at))
}

/// Syncs an empty folder and removes it.
pub fn remove_folder(alloc: Global, tree: &mut MemTree, at: &str) -> Result<(), WorldError> {
    let at = place_of(alloc, at)?;
    need_removable(tree, &at)?;
    answered(tree.remove_folder(&at))
}

/// Syncs a folder.
pub fn sync_folder(alloc: Global, tree: &mut MemTree, at: &str) -> Result<(), WorldError> {
    let at = place_of(alloc, at)?;
    need_folder(tree, &at)?;
    answered(tree.sync_folder(&at))
}

/// Makes a file firm.
pub fn sync_file(alloc: Global, tree: &mut MemTree, at: &str) -> Result<(), WorldError> {
    let at = place_of(alloc, at)?;
    need_file(tree, &at)?;
    answered(tree.sync_file(&at))
}
