// The staged mods.
ghost use Rattle.std.specs.Prelude.{◌<◌, ◌+◌, [], OnOk};
ghost use Rattle.sample_world.specs.Files.{stage_files};
ghost use Rattle.sample_world.specs.Worlds.{HasFiles};
ghost use Rattle.sample_world.specs.Parts.{mods_below, files_below};

use crate::names::{count_mods, mod_bytes, mod_id};
use crate::places::mod_place;
use crate::putting::put_with_folder;
use std::alloc::{AllocError, Global};
use tree_fs::Place;
use tree_mem::MemTree;

// The first file of a mod, with the folder of the mod.
fn add_first(alloc: Global, tree: &mut MemTree, mod_index: u32) -> Result<(), AllocError>
    requires few { mod_index < 1000 }
    requires files { HasFiles (mods_below mod_index) tree.old }
    ensures { OnOk result (HasFiles (files_below mod_index 1) tree.new) }
{
    let file_index = 50 * mod_index;
    let at = mod_place(alloc, mod_index, file_index)?;
    let bytes = mod_bytes(alloc, mod_index, file_index)?;
    let id = mod_id(alloc, mod_index)?;
    let folder = Place::mod_folder(alloc, &id)?;
    tree.add_folder(alloc, &folder)?;
    put_with_folder(alloc, tree, &at, bytes.as_bytes())
}

// One more file of a mod, which has so many; with its folder where it is the first in that.
fn add_next(alloc: Global, tree: &mut MemTree, mod_index: u32, count: u32) -> Result<(), AllocError>
    requires few { mod_index < 1000 }
    requires some { 0 < count }
    requires most { count < 100 }
    requires files { HasFiles (files_below mod_index count) tree.old }
    ensures { OnOk result (HasFiles (files_below mod_index (count + 1)) tree.new) }
{
    let file_index = 50 * mod_index + count;
    let at = mod_place(alloc, mod_index, file_index)?;
    let bytes = mod_bytes(alloc, mod_index, file_index)?;
    if file_index % 100 == 0 {
        put_with_folder(alloc, tree, &at, bytes.as_bytes())
    } else {
        tree.add_file(alloc, &at, bytes.as_bytes())
    }
}

fn add_mod(alloc: Global, tree: &mut MemTree, mod_index: u32) -> Result<(), AllocError>
    requires few { mod_index < 1000 }
    requires files { HasFiles (mods_below mod_index) tree.old }
    ensures { OnOk result (HasFiles (mods_below (mod_index + 1)) tree.new) }
{
    add_first(alloc, tree, mod_index)?;
    for count in 1..100 {
        add_next(alloc, tree, mod_index, count)?;
    }
    Ok(())
}

/// Adds the mods to a world without files.
pub(crate) fn add_mods(alloc: Global, tree: &mut MemTree, number: u64) -> Result<(), AllocError>
    requires { HasFiles [] tree.old }
    ensures { OnOk result (HasFiles (stage_files number) tree.new) }
{
    for mod_index in 0..count_mods(number) {
        add_mod(alloc, tree, mod_index)?;
    }
    Ok(())
}
