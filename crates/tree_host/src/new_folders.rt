// Folders of which all is known, as this tree made them.
ghost use Rattle.std.specs.Prelude.{◌≡◌, ℕ, List, true, false, IsTrue};
ghost use Rattle.std.specs.HashSet.{contains_text};

use crate::folder_set::FolderSet;
use std::alloc::{AllocError, Global};

/// The folders that were made since the last `forget`, and how far they were filled: in byte order
/// no file in them comes after the last one.
#[derive(Drop)]
pub(crate) struct NewFolders {
    alloc: Global,
    folders: FolderSet,
    last: String,
}

impl NewFolders {
    pub(crate) fn new(alloc: Global) -> NewFolders
        ensures { (path : List ℕ) → contains_text result.folders.paths path ≡ false }
    {
        NewFolders {
            alloc,
            folders: FolderSet::new(alloc),
            last: String::new(alloc),
        }
    }

    pub(crate) fn clear(&mut self)
        ensures { (path : List ℕ) → contains_text self.new.folders.paths path ≡ false }
    {
        self.folders.clear();
        self.last = String::new(self.alloc);
    }

    pub(crate) fn add(&mut self, folder: &str) -> Result<(), AllocError> {
        self.folders.add(folder)
    }

    /// Before it is removed.
    pub(crate) fn remove(&mut self, folder: &str)
        ensures { contains_text self.new.folders.paths folder.now ≡ false }
    {
        self.folders.remove(folder);
    }

    /// Before a file comes to this path in this folder.
    pub(crate) fn fill(&mut self, folder: &str, path: &str) -> Result<(), AllocError> {
        if self.folders.has(folder) && self.last.as_str() < path {
            self.last = String::from_str(self.alloc, path)?;
        }
        Ok(())
    }

    /// Whether nothing can stand at this path in this folder, as far as is known.
    pub(crate) fn is_free(&self, folder: &str, path: &str) -> bool
        ensures { IsTrue result → (contains_text self.now.folders.paths folder.now ≡ true)
            × (contains_text self.now.folders.paths path.now ≡ false) }
    {
        self.folders.has(folder) && !self.folders.has(path) && self.last.as_str() < path
    }
}
