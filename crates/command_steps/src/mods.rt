// The mods below `stage`.
ghost use Rattle.std.specs.Prelude.{◌≡◌, Some, None, IfOk, if◌then◌else◌};
ghost use Rattle.stage_scan.specs.Files.{AreInPathOrder, HasSamePaths};
ghost use Rattle.tree_fs.specs.Story.{disk_of};
ghost use Rattle.tree_fs.specs.Calls.{HasCause};
ghost use Rattle.tree_fs.specs.Listing.{IsListing};
ghost use Rattle.command_steps.specs.Mods.{ListsMods, is_mod_entry, mod_names, stage_spot};

use rel_paths::{ModId, PathError};
use std::alloc::{AllocError, Global};
use tree_fs::{Entry, Kind, Place, Root, Tree, TreeError};

/// The ids of the mods below `stage`, in byte order.
pub(crate) fn staged_mods<T: Tree>(alloc: Global, tree: &mut T) -> Result<Vec<ModId>, TreeError>
    ensures answer { T.tells →
        IfOk result (λ ids. ListsMods (disk_of (T.story tree.old)) ids.items) }
    ensures order { IfOk result (λ ids. AreInPathOrder ids.items) }
    ensures same { T.tells → T.story tree.new ≡ T.story tree.old }
    ensures cause { HasCause (T.faults tree.old) (T.faults tree.new) result }
{
    let entries = list_stage(tree)?;
    let ids = mod_ids(alloc, &entries)?;
    Ok(in_order(ids)?)
}

// These ids in byte order, each once. A tree that tells no story may list a name twice.
fn in_order(mut ids: Vec<ModId>) -> Result<Vec<ModId>, AllocError>
    ensures order { IfOk result (λ left. AreInPathOrder left.items) }
    ensures same { IfOk result (λ left. HasSamePaths ids.items left.items) }
{
    ids.sort()?;
    ids.dedup();
    Ok(ids)
}

fn list_stage<T: Tree>(tree: &mut T) -> Result<Vec<Entry>, TreeError>
    ensures answer { T.tells →
        IfOk result (λ entries.
        IsListing (disk_of (T.story tree.old)) stage_spot entries.items) }
    ensures same { T.tells → T.story tree.new ≡ T.story tree.old }
    ensures cause { HasCause (T.faults tree.old) (T.faults tree.new) result }
{
    let stage = Place {
        root: Root::Stage,
        rel: None,
    };
    tree.list(&stage)
}

// The mods among the entries of `stage`.
fn mod_ids(alloc: Global, entries: &[Entry]) -> Result<Vec<ModId>, AllocError>
    ensures { IfOk result (λ ids. ids.items ≡ mod_names entries.now) }
{
    let mut ids = Vec::new(alloc);
    for entry in entries {
        if let Some(id) = mod_id(alloc, entry)? {
            ids.push(id)?;
        }
    }
    Ok(ids)
}

fn mod_id(alloc: Global, entry: &Entry) -> Result<Option<ModId>, AllocError>
    ensures { IfOk result (λ id.
        id ≡ (if is_mod_entry entry.now then Some entry.now.name else None)) }
{
    if entry.kind != Kind::Folder {
        return Ok(None);
    }
    match ModId::parse(alloc, entry.name.text()) {
        Ok(id) => Ok(Some(id)),
        Err(PathError::Memory) => Err(AllocError),
        Err(_) => Ok(None),
    }
}
