// Sources of rows, and the folders that they lie in.
ghost use Rattle.std.specs.Prelude.{◌≡◌, ◌<◌, ◌||◌, ◌&&◌, ℕ, List, [], length, OnOk};
ghost use Rattle.std.specs.Str.{bytes_eq};
ghost use Rattle.manifest_json.specs.Sources.{has, is_met, is_pair, is_below_one, ends_folder, HasAdded, HasFolders};

use std::alloc::{AllocError, Global};
use std::collections::BTreeSet;

/// The sources of rows, each with its mod's id in front, and all folders that they lie in, with the
/// same id in front. So what extends a source, or is extended by it, is found by a look-up.
#[derive(Drop)]
pub(crate) struct Sources<'a> {
    taken: BTreeSet<(&'a [u8], &'a [u8])>,
    folders: BTreeSet<(&'a [u8], &'a [u8])>,
}

impl<'a> Sources<'a> {
    // No sources.
    pub(crate) fn new(alloc: Global) -> Sources<'a>
        ensures taken { result.taken.keys ≡ [] }
        ensures folders { result.folders.keys ≡ [] }
    {
        Sources {
            taken: BTreeSet::new(alloc),
            folders: BTreeSet::new(alloc),
        }
    }

    // Whether a source of this mod is this one, or extends it, or is extended by it.
    pub(crate) fn is_met(&self, id: &'a [u8], source: &'a [u8]) -> bool
        ensures { result ≡ is_met self.now id.now source.now }
    {
        has(&self.taken, id, source)
            || (has(&self.folders, id, source) || is_below_one(&self.taken, id, source))
    }

    // Adds a source.
    pub(crate) fn add(&mut self, id: &'a [u8], source: &'a [u8]) -> Result<(), AllocError>
        ensures { OnOk result (HasAdded id.now source.now self.old self.new) }
    {
        insert(&mut self.taken, id, source)?;
        add_folders(&mut self.folders, id, source)
    }
}

// Whether the set has this path of this mod.
fn has<'a>(set: &BTreeSet<(&'a [u8], &'a [u8])>, id: &'a [u8], path: &'a [u8]) -> bool
    ensures { result ≡ has set.now id.now path.now }
{
    set.contains(&(id, path))
}

// Adds this path of this mod.
fn insert<'a>(
    set: &mut BTreeSet<(&'a [u8], &'a [u8])>,
    id: &'a [u8],
    path: &'a [u8],
) -> Result<(), AllocError>
    ensures { OnOk result ((m p : List ℕ)
        → has set.new m p ≡ (is_pair id.now path.now m p || has set.old m p)) }
{
    set.insert((id, path))?;
    Ok(())
}

// Whether a folder that the path lies in is in the set.
fn is_below_one<'a>(set: &BTreeSet<(&'a [u8], &'a [u8])>, id: &'a [u8], path: &'a [u8]) -> bool
    ensures { result ≡ is_below_one set.now id.now path.now }
{
    for i in 0..path.len() {
        if path[i] == b'/' && has(set, id, &path[..i]) {
            return true;
        }
    }
    false
}

// Adds the folder that ends at byte i of the path, if one does.
fn add_folder<'a>(
    set: &mut BTreeSet<(&'a [u8], &'a [u8])>,
    id: &'a [u8],
    path: &'a [u8],
    i: usize,
) -> Result<(), AllocError>
    requires { i < length path.now }
    ensures { OnOk result ((m p : List ℕ)
        → has set.new m p ≡ ((bytes_eq id.now m && ends_folder path.now p i) || has set.old m p)) }
{
    if path[i] != b'/' {
        return Ok(());
    }
    insert(set, id, &path[..i])
}

// Adds the folders that the path lies in.
fn add_folders<'a>(
    set: &mut BTreeSet<(&'a [u8], &'a [u8])>,
    id: &'a [u8],
    path: &'a [u8],
) -> Result<(), AllocError>
    ensures { OnOk result (HasFolders id.now path.now (length path.now) set.old set.new) }
{
    for i in 0..path.len() {
        add_folder(set, id, path, i)?;
    }
    Ok(())
}
