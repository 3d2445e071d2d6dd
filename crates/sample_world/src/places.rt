// Where the files lie.
ghost use Rattle.std.specs.Prelude.{◌≡◌, IfOk};
ghost use Rattle.tree_fs.specs.Spot.{spot_of};
ghost use Rattle.sample_world.specs.Files.{mod_file, game_file};

use crate::names::{file_path, mod_id};
use std::alloc::{AllocError, Global};
use tree_fs::Place;

/// The place of a file in a mod.
pub(crate) fn mod_place(alloc: Global, mod_index: u32, file_index: u32) -> Result<Place, AllocError>
    ensures { IfOk result (λ place. spot_of place ≡ (mod_file mod_index file_index).at) }
{
    let id = mod_id(alloc, mod_index)?;
    let path = file_path(alloc, file_index)?;
    Place::staged(alloc, &id, &path)
}

/// The place of a file in the game.
pub(crate) fn game_place(alloc: Global, file_index: u32) -> Result<Place, AllocError>
    ensures { IfOk result (λ place. spot_of place ≡ (game_file file_index).at) }
{
    let path = file_path(alloc, file_index)?;
    Place::game(alloc, &path)
}
