// Own folders that go. None is listed that a file which is there in the end lies below.
ghost use Rattle.std.specs.Prelude.{◌↔◌, ◌≡◌, IsTrue, IfOk, OnOk, ℕ, List, map};
ghost use Rattle.std.specs.List.{AllByRecursion, Contains};
ghost use Rattle.manifest_json.specs.Paths.{AreRising};
ghost use Rattle.tree_fs.specs.Calls.{HasCause};
ghost use Rattle.tree_fs.specs.Disk.{IsFile};
ghost use Rattle.tree_fs.specs.Places.{game_spot};
ghost use Rattle.tree_fs.specs.Spot.{spot_of};
ghost use Rattle.tree_fs.specs.Story.{disk_of};
ghost use Rattle.move_plan.specs.declared.plan.Plan.{Plan};
ghost use Rattle.winner_table.specs.Folders.{IsFolderOf};
ghost use Rattle.plan_lists.specs.Search.{AreFalling};
ghost use Rattle.plan_lists.specs.Off.{text_in, LeavesNothing, AllLeave, GoesByOwn, AreOffBelow, IsFate, AreParted, kept_with, off_with};

use crate::search::{Pathed, has_below, has_text, has_text_falling};
use rel_paths::RelPath;
use std::alloc::{AllocError, Global};
use tree_fs::{Entry, Kind, Place, Tree, TreeError};

/// What becomes of the own folders.
#[derive(Drop)]
pub struct OwnFolders {
    /// Those that stay.
    pub kept: Vec<RelPath>,
    /// Those that go, from the last to the first.
    pub off: Vec<RelPath>,
}

// What becomes of an own folder.
#[derive(Clone, Copy)]
pub(crate) enum Fate {
    Stays,
    Goes,
    // It is no folder any more.
    Gone,
}

// Whether nothing is left of an entry.
fn entry_leaves(
    alloc: Global,
    folder: &RelPath,
    entry: &Entry,
    emptied: &[RelPath],
    off: &[RelPath],
) -> Result<bool, AllocError>
    requires emptied { AreRising emptied.now }
    requires off { AreFalling off.now }
    ensures { IfOk result (λ yes. IsTrue yes ↔ LeavesNothing emptied.now off.now entry.now.kind
        (text_in folder.now entry.now.name)) }
{
    let text = format!(in alloc; "{}/{}", folder.text(), entry.name.text())?;
    match entry.kind {
        Kind::Folder => Ok(has_text_falling(off, text.as_str())),
        Kind::Absent | Kind::File | Kind::Other => Ok(has_text(emptied, text.as_str())),
    }
}

// Whether nothing is left of each entry.
fn entries_leave(
    alloc: Global,
    folder: &RelPath,
    entries: &[Entry],
    emptied: &[RelPath],
    off: &[RelPath],
) -> Result<bool, AllocError>
    requires emptied { AreRising emptied.now }
    requires off { AreFalling off.now }
    ensures { IfOk result (λ yes. IsTrue yes ↔ AllLeave folder.now emptied.now off.now entries.now) }
{
    for entry in entries {
        if !entry_leaves(alloc, folder, entry, emptied, off)? {
            return Ok(false);
        }
    }
    Ok(true)
}

// Whether a folder is there.
fn is_folder<T: Tree>(tree: &mut T, place: &Place) -> Result<bool, TreeError>
    ensures answer { T.tells →
        IfOk result (λ yes. yes ≡ (disk_of (T.story tree.old)).folders (spot_of place.now)) }
    ensures same { T.tells → T.story tree.new ≡ T.story tree.old }
    ensures cause { HasCause (T.faults tree.old) (T.faults tree.new) result }
{
    match tree.kind(place)? {
        Kind::Folder => Ok(true),
        Kind::Absent | Kind::File | Kind::Other => Ok(false),
    }
}

// The same of an own folder, at its place. It isn't looked at where one of these files, which were
// found before, lies below it.
fn is_there<T: Tree>(
    alloc: Global,
    tree: &mut T,
    folder: &RelPath,
    place: &Place,
    emptied: &[RelPath],
) -> Result<bool, TreeError>
    requires place { spot_of place.now ≡ game_spot folder.now }
    requires emptied { AreRising emptied.now }
    requires stood { T.tells →
        AllByRecursion (λ p. IsFile (disk_of (T.story tree.old)) (game_spot p)) emptied.now }
    ensures answer { T.tells →
        IfOk result (λ yes. yes ≡ (disk_of (T.story tree.old)).folders (game_spot folder.now)) }
    ensures same { T.tells → T.story tree.new ≡ T.story tree.old }
    ensures cause { HasCause (T.faults tree.old) (T.faults tree.new) result }
{
    if has_below(alloc, emptied, folder)? {
        return Ok(true);
    }
    is_folder(tree, place)
}

// The fate of an own folder that none of the files lies below, where those of the folders below it
// that go are known.
fn looked_fate<T: Tree>(
    alloc: Global,
    tree: &mut T,
    folder: &RelPath,
    emptied: &[RelPath],
    off: &[RelPath],
) -> Result<Fate, TreeError>
    requires emptied { AreRising emptied.now }
    requires stood { T.tells →
        AllByRecursion (λ p. IsFile (disk_of (T.story tree.old)) (game_spot p)) emptied.now }
    requires off { AreFalling off.now }
    ensures answer { T.tells →
        let a = disk_of (T.story tree.old) in
        (own : List (List ℕ)) (files : List (List ℕ)) (plan : Plan)
        → GoesByOwn a own files emptied.now plan
        → Contains own folder.now → ¬ IsFolderOf files folder.now
        → AreOffBelow a own off.now plan (game_spot folder.now)
        → IfOk result (IsFate a own files plan folder.now) }
    ensures same { T.tells → T.story tree.new ≡ T.story tree.old }
    ensures cause { HasCause (T.faults tree.old) (T.faults tree.new) result }
{
    let place = Place::game(alloc, folder)?;
    if !is_there(alloc, tree, folder, &place, emptied)? {
        return Ok(Fate::Gone);
    }
    let entries = tree.list(&place)?;
    if entries_leave(alloc, folder, &entries, emptied, off)? {
        Ok(Fate::Goes)
    } else {
        Ok(Fate::Stays)
    }
}

// The fate of an own folder. It isn't looked at where one of the files lies below it.
fn fate_of<T: Tree, P: Pathed>(
    alloc: Global,
    tree: &mut T,
    folder: &RelPath,
    files: &[P],
    emptied: &[RelPath],
    off: &[RelPath],
) -> Result<Fate, TreeError>
    requires files { AreRising (map P.path files.now) }
    requires emptied { AreRising emptied.now }
    requires stood { T.tells →
        AllByRecursion (λ p. IsFile (disk_of (T.story tree.old)) (game_spot p)) emptied.now }
    requires off { AreFalling off.now }
    ensures answer { T.tells →
        let a = disk_of (T.story tree.old) in
        (own : List (List ℕ)) (plan : Plan)
        → GoesByOwn a own (map P.path files.now) emptied.now plan
        → Contains own folder.now
        → AreOffBelow a own off.now plan (game_spot folder.now)
        → IfOk result (IsFate a own (map P.path files.now) plan folder.now) }
    ensures same { T.tells → T.story tree.new ≡ T.story tree.old }
    ensures cause { HasCause (T.faults tree.old) (T.faults tree.new) result }
{
    if has_below(alloc, files, folder)? {
        Ok(Fate::Stays)
    } else {
        looked_fate(alloc, tree, folder, emptied, off)
    }
}

impl OwnFolders {
    fn note(&mut self, folder: &RelPath, fate: Fate) -> Result<(), AllocError>
        ensures kept { OnOk result (self.new.kept.items ≡ kept_with fate folder.now self.old.kept.items) }
        ensures off { OnOk result (self.new.off.items ≡ off_with fate folder.now self.old.off.items) }
    {
        match fate {
            Fate::Stays => self.kept.push(folder.copy()?)?,
            Fate::Goes => self.off.push(folder.copy()?)?,
            Fate::Gone => {}
        }
        Ok(())
    }
}

/// What becomes of the own folders. `files` are paths at which there is a file in the end: a folder
/// above one stays. Each other is listed: it goes where each of its entries is at one of the paths
/// `emptied`, at which there is a file now and none in the end, or is a folder that goes. It is
/// looked whether it is there only where none of these paths lies below it.
pub fn own_folders<T: Tree, P: Pathed>(
    alloc: Global,
    tree: &mut T,
    own: &[RelPath],
    files: &[P],
    emptied: &[RelPath],
) -> Result<OwnFolders, TreeError>
    requires own { AreRising own.now }
    requires files { AreRising (map P.path files.now) }
    requires emptied { AreRising emptied.now }
    requires stood { T.tells →
        AllByRecursion (λ p. IsFile (disk_of (T.story tree.old)) (game_spot p)) emptied.now }
    ensures answer { T.tells →
        let a = disk_of (T.story tree.old) in
        (plan : Plan) → GoesByOwn a own.now (map P.path files.now) emptied.now plan
        → IfOk result (λ found. AreParted a own.now (map P.path files.now) plan own.now
        found.kept.items found.off.items) }
    ensures falling { IfOk result (λ found. AreFalling found.off.items) }
    ensures kept { IfOk result (λ found.
        (path : List ℕ) → Contains found.kept.items path → Contains own.now path) }
    ensures off { IfOk result (λ found.
        (path : List ℕ) → Contains found.off.items path → Contains own.now path) }
    ensures same { T.tells → T.story tree.new ≡ T.story tree.old }
    ensures cause { HasCause (T.faults tree.old) (T.faults tree.new) result }
{
    let mut found = OwnFolders {
        kept: Vec::new(alloc),
        off: Vec::new(alloc),
    };
    let mut index = own.len();
    while index > 0 {
        index -= 1;
        let folder = &own[index];
        let fate = fate_of(alloc, tree, folder, files, emptied, found.off.as_slice())?;
        found.note(folder, fate)?;
    }
    Ok(found)
}
