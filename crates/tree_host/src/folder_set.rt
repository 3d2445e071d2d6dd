// Folders of which something is known.
ghost use Rattle.std.specs.Prelude.{◌≡◌, ℕ, List, false};
ghost use Rattle.std.specs.HashSet.{contains_text};

use std::alloc::{AllocError, Global};
use std::collections::HashSet;

// The most folders of a set.
const MOST_FOLDERS: usize = 65_536;

/// The paths of folders, at most 65,536 of them: before one more comes, all are let go.
#[derive(Drop)]
pub(crate) struct FolderSet {
    alloc: Global,
    paths: HashSet<String>,
}

impl FolderSet {
    pub(crate) fn new(alloc: Global) -> FolderSet
        ensures { (path : List ℕ) → contains_text result.paths path ≡ false }
    {
        FolderSet {
            alloc,
            paths: HashSet::new(alloc),
        }
    }

    pub(crate) fn has(&self, path: &str) -> bool
        ensures { result ≡ contains_text self.now.paths path.now }
    {
        self.paths.contains(path)
    }

    pub(crate) fn add(&mut self, path: &str) -> Result<(), AllocError> {
        self.add_path(String::from_str(self.alloc, path)?)
    }

    pub(crate) fn add_path(&mut self, path: String) -> Result<(), AllocError> {
        if self.paths.len() >= MOST_FOLDERS {
            self.paths.clear();
        }
        self.paths.insert(path)?;
        Ok(())
    }

    pub(crate) fn remove(&mut self, path: &str)
        ensures { contains_text self.new.paths path.now ≡ false }
    {
        self.paths.remove(path);
    }

    pub(crate) fn clear(&mut self)
        ensures { (path : List ℕ) → contains_text self.new.paths path ≡ false }
    {
        self.paths = HashSet::new(self.alloc);
    }
}
