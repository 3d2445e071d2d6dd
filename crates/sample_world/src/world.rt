// The sample as a whole.
ghost use Rattle.std.specs.Prelude.{IfOk};
ghost use Rattle.sample_world.specs.Worlds.{IsSample};

use crate::game::add_game;
use crate::mods::add_mods;
use crate::profile::add_profile;
use std::alloc::{AllocError, Global};
use tree_mem::MemTree;

/// The sample of a number: staged mods that share their files by halves, a game with files of its
/// own at some of their paths, and a profile with rules and overrides. Nothing is pending, every
/// file is firm, and no call is to fail. The one error is want of memory.
pub fn make(alloc: Global, number: u64) -> Result<MemTree, AllocError>
    ensures sample { IfOk result (λ tree. IsSample number tree) }
{
    let mut tree = MemTree::new(alloc)?;
    add_mods(alloc, &mut tree, number)?;
    add_game(alloc, &mut tree, number)?;
    add_profile(alloc, &mut tree, number)?;
    Ok(tree)
}
