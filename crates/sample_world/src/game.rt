// The files that the game has of its own.
ghost use Rattle.std.specs.Prelude.{◌≡◌, ◌<◌, ◌+◌, ◌++◌, true, OnOk};
ghost use Rattle.sample_world.specs.Files.{is_in_game, stage_files, game_files};
ghost use Rattle.sample_world.specs.Worlds.{HasFiles};
ghost use Rattle.sample_world.specs.Parts.{game_below};

use crate::names::{count_mods, game_bytes};
use crate::places::game_place;
use crate::putting::put_with_folder;
use std::alloc::{AllocError, Global};
use tree_mem::MemTree;

// Whether the game has this file: one in seven, of every other hundred.
fn is_in_game(number: u64, index: u32) -> bool
    ensures { result ≡ is_in_game number index }
{
    index / 100 % 2 == 0 && u64::from(index % 7) == number % 7
}

// One more file, with its folder where it is the first in that.
fn add_file(alloc: Global, tree: &mut MemTree, number: u64, index: u32) -> Result<(), AllocError>
    requires few { index < 100000 }
    requires there { is_in_game number index ≡ true }
    requires files { HasFiles (game_below number index) tree.old }
    ensures { OnOk result (HasFiles (game_below number (index + 1)) tree.new) }
{
    let at = game_place(alloc, index)?;
    let bytes = game_bytes(alloc, index)?;
    if index % 100 < 7 {
        put_with_folder(alloc, tree, &at, bytes.as_bytes())
    } else {
        tree.add_file(alloc, &at, bytes.as_bytes())
    }
}

fn add_if_there(
    alloc: Global,
    tree: &mut MemTree,
    number: u64,
    index: u32,
) -> Result<(), AllocError>
    requires few { index < 100000 }
    requires files { HasFiles (game_below number index) tree.old }
    ensures { OnOk result (HasFiles (game_below number (index + 1)) tree.new) }
{
    if is_in_game(number, index) {
        add_file(alloc, tree, number, index)
    } else {
        Ok(())
    }
}

/// Adds the files of the game to a world of the mods.
pub(crate) fn add_game(alloc: Global, tree: &mut MemTree, number: u64) -> Result<(), AllocError>
    requires { HasFiles (stage_files number) tree.old }
    ensures { OnOk result (HasFiles (stage_files number ++ game_files number) tree.new) }
{
    for index in 0..50 * (count_mods(number) + 1) {
        add_if_there(alloc, tree, number, index)?;
    }
    Ok(())
}
