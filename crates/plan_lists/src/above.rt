// The folders above paths.
ghost use Rattle.std.specs.Prelude.{◌↔◌, ℕ, List, IsTrue, IfOk, OnOk, map};
ghost use Rattle.std.specs.List.{Contains};
ghost use Rattle.rel_paths.specs.Names.{names_of};
ghost use Rattle.manifest_json.specs.Paths.{AreRising};
ghost use Rattle.plan_lists.specs.Above.{HasFoldersAbove, AddsAbove, IsAboveOne, IsInOne};

use crate::places::in_order;
use crate::search::Pathed;
use rel_paths::RelPath;
use std::alloc::{AllocError, Global};

// Whether the last of these is this folder or lies below it.
fn is_in_last(found: &[RelPath], folder: &RelPath) -> bool
    ensures { IsTrue result → IsInOne found.now folder.now }
{
    match found.last() {
        Some(last) => last.starts_with(folder),
        None => false,
    }
}

// Puts the folders above a path behind these, but for those that the last of them lies in or is.
fn add_above(alloc: Global, found: &mut Vec<RelPath>, path: &RelPath) -> Result<(), AllocError>
    requires { HasFoldersAbove found.old.items }
    ensures { OnOk result (AddsAbove path.now found.old.items found.new.items) }
{
    let Some(above) = path.parent(alloc)? else {
        return Ok(());
    };
    if is_in_last(found, &above) {
        return Ok(());
    }
    add_above(alloc, found, &above)?;
    found.push(above)?;
    Ok(())
}

/// The folders above these, which are best in path order, each once.
pub fn folders_above<T: Pathed>(alloc: Global, items: &[T]) -> Result<Vec<RelPath>, AllocError>
    ensures rise { IfOk result (λ folders. AreRising folders.items) }
    ensures are { IfOk result (λ folders.
        (names : List (List ℕ))
        → (Contains (map names_of folders.items) names ↔ IsAboveOne (map T.path items.now) names)) }
{
    let mut found = Vec::new(alloc);
    for item in items {
        add_above(alloc, &mut found, item.path())?;
    }
    in_order(found)
}
