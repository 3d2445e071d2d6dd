// How many files lie below a root.
ghost use Rattle.std.specs.Prelude.{◌≡◌, ◌++◌, ◌∷◌, [], IfOk, OnOk, map};
ghost use Rattle.std.specs.String.{string_bytes};
ghost use Rattle.fault_count.specs.Causes.{HasCause};
ghost use Rattle.tree_fs.specs.Spot.{spot_of, root_spot, below};
ghost use Rattle.tree_fs.specs.Story.{disk_of};
ghost use Rattle.tree_fs.specs.declared.tree.TreeError.TheVariants.{Failed};
ghost use Rattle.tree_fs.specs.EntryName.{IsName};
ghost use Rattle.tour_counts.specs.Files.{HasFiles, files_among, folder_in, folders_among, text_below};

use crate::looks::sum_of;
use rel_paths::RelPath;
use std::alloc::{AllocError, Global};
use tree_fs::{Entry, Kind, Name, Place, Root, Tree, TreeError};

/// How many files lie in a root and in the folders below it.
///
/// It asks for one listing of each folder. Want of memory also stands for a folder that lies too
/// deep for a place, and for more files than a count holds.
pub fn count_files<T: Tree>(alloc: Global, tree: &mut T, root: Root) -> Result<u64, TreeError>
    ensures count { T.tells →
        IfOk result (HasFiles (disk_of (T.story tree.old)) (root_spot root ∷ [])) }
    ensures same { T.tells → T.story tree.new ≡ T.story tree.old }
    ensures cause { HasCause Failed (T.faults tree.old) (T.faults tree.new) result }
{
    let mut folders = Vec::new(alloc);
    folders.push(Place { root, rel: None })?;
    let mut count: u64 = 0;
    for _ in 0..u64::MAX {
        let Some(folder) = folders.pop() else {
            return Ok(count);
        };
        let entries = tree.list(&folder)?;
        push_folders(alloc, &mut folders, &folder, &entries)?;
        count = sum_of(count, count_among(&entries))?;
    }
    Err(TreeError::Memory)
}

// How many of these entries are files.
fn count_among(entries: &[Entry]) -> u64
    ensures { result ≡ files_among entries.now }
{
    entries
        .iter()
        .filter(|entry| entry.kind == Kind::File)
        .count() as u64
}

// Adds an entry of a folder, where it is a folder.
fn push_folder(
    alloc: Global,
    folders: &mut Vec<Place>,
    folder: &Place,
    entry: &Entry,
) -> Result<(), AllocError>
    ensures { OnOk result (map spot_of folders.new.items
        ≡ map spot_of folders.old.items ++ folder_in (spot_of folder.now) entry.now) }
{
    match entry.kind {
        Kind::Folder => {
            let place = place_below(alloc, folder, &entry.name)?;
            folders.push(place)?;
            Ok(())
        }
        Kind::Absent | Kind::File | Kind::Other => Ok(()),
    }
}

// Adds those of the entries of a folder that are folders.
fn push_folders(
    alloc: Global,
    folders: &mut Vec<Place>,
    folder: &Place,
    entries: &[Entry],
) -> Result<(), AllocError>
    ensures { OnOk result (map spot_of folders.new.items
        ≡ map spot_of folders.old.items ++ folders_among (spot_of folder.now) entries.now) }
{
    for entry in entries {
        push_folder(alloc, folders, folder, entry)?;
    }
    Ok(())
}

// The text of a path with one name more.
fn text_below(alloc: Global, above: &Option<RelPath>, name: &Name) -> Result<String, AllocError>
    ensures same { IfOk result (λ text. string_bytes text ≡ text_below above.now name.now) }
    ensures good { IfOk result (λ _. IsName name.now) }
{
    let mut text = String::new(alloc);
    if let Some(above) = above {
        text.push_str(above.text())?;
        text.push_str("/")?;
    }
    text.push_str(name.text())?;
    Ok(text)
}

// The entry of a folder with this name, where its place isn't too deep.
fn place_below(alloc: Global, folder: &Place, name: &Name) -> Result<Place, AllocError>
    ensures { IfOk result (λ place. spot_of place ≡ below (spot_of folder.now) name.now) }
{
    let text = text_below(alloc, &folder.rel, name)?;
    match RelPath::parse_held(alloc, text.as_str()) {
        Ok(path) => Ok(Place {
            root: folder.root,
            rel: Some(path),
        }),
        Err(_) => Err(AllocError),
    }
}
