// Entries that a walk has still to look at.
ghost use Rattle.std.specs.Prelude.{◌≡◌, ◌++◌, ◌∷◌, [], IfOk, IfErr, IfSome, OnOk, MatchOption, map, reverse};
ghost use Rattle.std.specs.List.{AllByRecursion};
ghost use Rattle.std.specs.String.{string_bytes};
ghost use Rattle.rel_paths.specs.Names.{names_of, text_of, IsUserPath};
ghost use Rattle.tree_fs.specs.EntryName.{IsName};
ghost use Rattle.tree_fs.specs.Spot.{spot_of, names_below};
ghost use Rattle.stage_scan.specs.Walks.{inside, IsSound, IsEntryFault};
ghost use Rattle.stage_scan.specs.Stack.{text_below, names_at, entry_below, HasUserFolder};

use crate::ScanError;
use rel_paths::{ModId, PathError, RelPath};
use std::alloc::{AllocError, Global};
use tree_fs::{Entry, Kind, Name, Place};

/// An entry below a mod.
#[derive(Drop)]
pub(crate) struct Pending {
    /// The path below the mod of the folder that it lies in; `None` is the mod's own folder.
    pub above: Option<RelPath>,
    pub entry: Entry,
}

/// The folder with this path below a mod.
pub(crate) fn folder_place(
    alloc: Global,
    id: &ModId,
    path: &Option<RelPath>,
) -> Result<Place, AllocError>
    requires { IfSome path.now IsUserPath }
    ensures { IfOk result (λ place. spot_of place ≡ inside id.now (names_below path.now)) }
{
    match path {
        Some(path) => Place::staged(alloc, id, path),
        None => Place::mod_folder(alloc, id),
    }
}

// The text of a path with one name more.
fn text_below(alloc: Global, above: &Option<RelPath>, name: &Name) -> Result<String, AllocError>
    ensures same { IfOk result (λ text. string_bytes text ≡ text_below above.now name.now) }
    ensures good { IfOk result (λ _. IsName name.now) }
{
    let mut text = String::new(alloc);
    if let Some(above) = above {
        text.push_str(above.text())?;
        text.push_str("/")?;
    }
    text.push_str(name.text())?;
    Ok(text)
}

// The path below the mod, where it is a user path.
fn user_path(
    alloc: Global,
    above: &Option<RelPath>,
    name: &Name,
) -> Result<Option<RelPath>, AllocError>
    ensures { IfOk result (λ found. MatchOption found (IsUserPath (text_of (names_below above.now ++ name.now ∷ [])) → ⊥) (λ path. (names_of path ≡ names_below above.now ++ name.now ∷ []) × IsUserPath path × IsUserPath (text_of (names_below above.now ++ name.now ∷ [])))) }
{
    let text = text_below(alloc, above, name)?;
    match RelPath::parse(alloc, text.as_str()) {
        Ok(path) => Ok(Some(path)),
        Err(PathError::Memory) => Err(AllocError),
        Err(_) => Ok(None),
    }
}

impl Pending {
    /// The path below the mod, where the entry has no fault.
    pub(crate) fn sound_path(self, alloc: Global, id: &ModId) -> Result<RelPath, ScanError>
        requires { HasUserFolder self }
        ensures ok { IfOk result (λ path. (names_of path ≡ names_at self) × IsUserPath path × IsSound self.entry.kind (names_at self)) }
        ensures err { IfErr result (IsEntryFault id.now self.entry.kind (names_at self)) }
    {
        let Some(path) = user_path(alloc, &self.above, &self.entry.name)? else {
            let folder = folder_place(alloc, id, &self.above)?;
            return Err(ScanError::BadEntry {
                folder,
                name: self.entry.name,
            });
        };
        if self.entry.kind == Kind::Other {
            let folder = folder_place(alloc, id, &self.above)?;
            return Err(ScanError::OddEntry {
                folder,
                name: self.entry.name,
            });
        }
        if path.is_reserved() {
            return Err(ScanError::Reserved(Place::staged(alloc, id, &path)?));
        }
        Ok(path)
    }
}

fn copy_path(path: &Option<RelPath>) -> Result<Option<RelPath>, AllocError>
    ensures { IfOk result (λ copy. copy ≡ path.now) }
{
    match path {
        Some(path) => Ok(Some(path.copy()?)),
        None => Ok(None),
    }
}

/// Puts the entries of a folder on the stack, the first one on top.
pub(crate) fn push_entries(
    stack: &mut Vec<Pending>,
    above: &Option<RelPath>,
    mut entries: Vec<Entry>,
) -> Result<(), AllocError>
    ensures { OnOk result (stack.new.items ≡ stack.old.items ++ map (entry_below above.now) (reverse entries.items)) }
{
    while let Some(entry) = entries.pop() {
        stack.push(Pending {
            above: copy_path(above)?,
            entry,
        })?;
    }
    Ok(())
}
